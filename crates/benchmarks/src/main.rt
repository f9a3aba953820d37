//! What the scripts of `bench/` time.
//!
//! The program does one piece of work and prints how large it was; a script runs it at two sizes and compares the
//! times. Most words name the work and a size, or a file whose size counts; the `show-` words print what a script
//! compares with the output of others.
//!
//! | Words | Work |
//! |---|---|
//! | `wide N tree`, `deep N tree` | builds the tree of an element with N children, or of N nested elements |
//! | `.. from` | and makes an arena of it |
//! | `.. to` | and makes a tree of the arena again |
//! | `.. walk` | and goes over the arena's nodes by links, instead |
//! | `.. precedes` | and asks a hundred times which of the first and the last node comes first, instead |
//! | `matching descendant N COMPOUNDS` | matches the innermost of N nested elements a thousand times with a selector of as many compounds, in vain |
//! | `matching child ..` | the same, where all combinators but the last are `>` |
//! | `matching later ..` | the same with `~` and the last of N siblings |
//! | `matching-all WORK N COMPOUNDS` | matches each of these elements once instead, where what is asked for is kept |
//! | `styles N RULES` | gives N elements their styles by as many rules, of which one at most matches each |
//! | `lanes WORK TIMES` | searches 16 MiB for a class of bytes so often, for the `first` place, the `count`, or all `runs` between |
//! | `lanes WORK-plainly TIMES` | the same by a plain loop |
//! | `tokens FILE` | reads the tokens of a style sheet |
//! | `sheet FILE` | reads a style sheet, and answers how many rules and counter styles it has |
//! | `show-tokens` | prints the tokens of the style sheet on standard input, one a line |
//! | `show-rules` | prints its rules as they are cut, read or not: the tokens of preludes and blocks |
//! | `show-declarations` | prints the declarations of the block's content on standard input, known or not |
//! | `show-reaches` | does the edits on standard input, and prints of each its reach and how many elements have other styles then |
#![tactic(auto)]

mod arena;
mod cascade;
mod cutting;
mod element_styles;
mod lanes;
mod matching;
mod reaching;
mod sheet;
mod style_words;

use std::env;
use std::process::ExitCode;

/// What the words ask for, or nothing where they ask for nothing that is here.
fn perform(rt: &HostRuntime, words: &[String]) -> Option<usize> {
    match words {
        [work, join, size, compounds] if work.as_str() == "matching" => {
            let size = size.as_str().parse::<usize>().ok()?;
            let compounds = compounds.as_str().parse::<usize>().ok()?;
            matching::perform(rt.alloc(), join.as_str(), size, compounds)
        }
        [work, join, size, compounds] if work.as_str() == "matching-all" => {
            let size = size.as_str().parse::<usize>().ok()?;
            let compounds = compounds.as_str().parse::<usize>().ok()?;
            matching::perform_all(rt.alloc(), join.as_str(), size, compounds)
        }
        [work, elements, rules] if work.as_str() == "styles" => {
            let elements = elements.as_str().parse::<usize>().ok()?;
            let rules = rules.as_str().parse::<usize>().ok()?;
            cascade::perform(rt, elements, rules)
        }
        [word, work, times] if word.as_str() == "lanes" => {
            let times = times.as_str().parse::<usize>().ok()?;
            lanes::perform(rt.alloc(), work.as_str(), times)
        }
        [shape, size, work] => {
            let size = size.as_str().parse::<usize>().ok()?;
            arena::perform(rt.alloc(), shape.as_str(), size, work.as_str())
        }
        [work] if work.as_str() == "show-tokens" => sheet::show_tokens(rt),
        [work] if work.as_str() == "show-rules" => cutting::show_rules(rt),
        [work] if work.as_str() == "show-declarations" => cutting::show_declarations(rt),
        [work] if work.as_str() == "show-reaches" => reaching::show_reaches(rt),
        [work, file] if work.as_str() == "tokens" => sheet::count_tokens(rt, file.as_str()),
        [work, file] if work.as_str() == "sheet" => sheet::count_rules(rt, file.as_str()),
        _ => None,
    }
}

fn words(rt: &HostRuntime) -> Option<Vec<String>> {
    let mut words = Vec::new(rt.alloc());
    for word in env::args(rt).ok()?.skip(1) {
        words.push(word).ok()?;
    }
    Some(words)
}

fn main(rt: HostRuntime) -> ExitCode {
    let answer = match words(&rt) {
        Some(words) => perform(&rt, words.as_slice()),
        None => None,
    };
    match answer {
        Some(size) => match println!(rt; "{size}") {
            Ok(()) => ExitCode::SUCCESS,
            Err(_) => ExitCode::FAILURE,
        },
        None => ExitCode::FAILURE,
    }
}
