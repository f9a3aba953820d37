//! The work of an edit pays for what the second of its two walks finds.
//!
//! Where a document has reversed counters that are given no number (CSS Lists 3, 4.4), an edit is walked twice: with all starts
//! 0, and with the starts of each document, where the elements are turned that have other ones (`start_reach`). The work of the
//! edit pays for both walks. What the second one tells is put on the board, and the texts of elements that refer to what it
//! touched are made again (CSS Generated Content 3, 2.6). This crate holds that the work pays for these texts as well, and for all
//! of it together. It has no code. Its functions are laws.
//!
//! | In | Out |
//! |---|---|
//! | the merge of an edit where these elements are turned: `turned_merge edit before after (is_among keys)` | the elements that it enters: `entered_elements` |
//! | what is told of the elements of both documents, each with the starts that it has: `told_of before`, `told_of after` | the elements that are told otherwise |
//! | of what the second walk tells, that which is enough: `news` | the weight of the texts to be made again: `renewal_weight before after merge news` |
//! | the merges of both walks | the most steps that each takes: `walk_budget table merge` |
//!
//! Of walks and merges three words are used:
//!
//! * A walk is *led into* an element that stays where there is a stop into it: the element is turned, or has a place under it.
//! * A walk *goes into* an element that stays where it is led into it, and where the element is handed something else than before.
//! * A merge *enters* the elements into which a walk is led, and those that come (`entered_elements`).
//!
//! The work of an edit has five points: elements that are placed, that differ, that are in the scope of a counter which is touched,
//! that are around a place, and those that refer to these. What is known, where the edit does not reach everywhere:
//!
//! * Each element that is entered falls under a point other than that of references. One that is entered where no element is turned
//!   is placed or around a place. One that is turned has other starts, so its inputs differ. And into one that has a turned element
//!   under it the first walk goes: so the edit has a place under it, or it is handed something else, and its inputs differ too.
//! * So does each element that is told otherwise than before. One that is not entered has the same under it, and where its inputs
//!   are the same it is handed the same in both documents: then the same is told of it.
//! * So the work pays for the texts that are made again: those of the elements in the news, of those that refer to what is entered
//!   or in the news, and of those that refer to these. What refers to a point is under that of references.
//!   [`laws::work_pays_for_second_news`]
//! * It pays for all steps of the edit together: the most that both walks take, 3 for each element that goes, and 4 for each unit of
//!   weight of those texts, which weigh no more than the work.
//!   [`laws::work_pays_for_started_edits`]
//!
//! To read the scopes of touched counters again is no part of this sum. It takes no step, since no board is read: what is read is
//! kept beside the board. It takes time. For that 20 steps of the bound are left over for each element in these scopes: the sum is
//! at most 24, 20 for each unit of the part of the work that pays for walks (`walk_work`), and 4 for each unit of all of it.
//!
//! Of the elements that are turned it is asked that each has another start and other inputs, and that each element which is not
//! turned has the starts that it had (`AreTurned` of `start_reach`).
//!
//! # An example
//!
//! That of `start_reach`: a document with two headings, whose second paragraph goes by `remove /2`. Here the paragraphs show their
//! numbers, and the last one refers to the first.
//!
//! ```text
//! 0 body
//! 1   h2
//! 2   p, with the id "first"
//! 3   p
//! 4   h2
//! 5   p, with the href "#first"
//! ```
//!
//! ```css
//! h2 { counter-reset: reversed(c) }
//! p { counter-increment: c -1 }
//! p::before { content: counter(c) }
//! p[href]::after { content: target-counter(attr(href), c) }
//! ```
//!
//! The first heading's counter starts with 2, and before with 3. So 1 is turned. The second walk is led into 0 and 1, and goes into
//! 2 too, which is handed another number:
//!
//! | Element | The merge enters it | It is told | It is under the point |
//! |---|---|---|---|
//! | 0 | yes: the paragraph that goes was under it | | around the place |
//! | 1 | yes: it is turned | with another counter | differing |
//! | 2 | no | with the number 1, and before with 2 | differing |
//! | 4 | no | as before: it is handed the first heading's counter with 1, as it was | |
//! | 5 | no | as before | |
//!
//! The news are what is told of 0, 1 and 2. Element 5 is told as before, and refers to 2: its text is made again, and shows 1. It
//! is under the point of references. It weighs 3, since it holds a reference before the edit and after it; the others weigh 1: so
//! the weight of the texts that are made again is 6. The work is 13: 10 as in `start_reach`, and 3 for the element that refers.
//! The walks take at most 22 and 31 steps, one element goes, and 4 times 6 is 24: that is 80, and with the work in the place of the
//! weight it is 108. The work pays for 336.
//!
//! # What the layers above cite
//!
//! `walk_budget`, and the laws `TurnedEnterPoints`, `StartedChangesAreTold`, `StartedNewsArePaid` and `StartedEditsArePaid`
//! (`specs/Laws.antt`), by the lemmas of `proofs/LawLemmas.antt`.
#![tactic(auto)]

pub mod laws;
