//! Laws of volumes. The functions do nothing: each contract is a law.

ghost use Rattle.book_definitions.specs.BoxLaws.{BoxesWithoutUrlsStandAlone, PiecesNeedOneTarget, PiecesWithoutTargetsAreEmpty};
ghost use Rattle.book_definitions.specs.Laws.{AimNeedsItsChapterAlone, ChapterDumpIsThatOfTheTrees, ChapterLinesAreThoseOfTheTrees, ClosedChapterHasItsDump, ClosedChapterHasItsEntries, ClosedChapterHasItsLines, EditsKeepOtherAims, EditsKeepOtherLines, LinesNeedTheChaptersAimedAt, NamesAimAtTheirChapters, OnlyTextsCrossChapters, OtherChaptersChangeOnlyTexts, VolumeOfOneChapter};

/// A chapter none of whose urls has anything before its `#` has the entries, lines and dump of its document alone, in
/// whatever volume it stands. So a volume of one such chapter is its document.
pub fn closed_chapters_stand_alone()
    ensures entries { ClosedChapterHasItsEntries }
    ensures lines { ClosedChapterHasItsLines }
    ensures dump { ClosedChapterHasItsDump }
    ensures one { VolumeOfOneChapter }
{}

/// The counters and depths of a chapter's elements, and which boxes they make, are those of its document alone. So an edit
/// of one chapter changes nothing but texts in another.
pub fn only_texts_cross_chapters()
    ensures document { OnlyTextsCrossChapters }
    ensures others { OtherChaptersChangeOnlyTexts }
{}

/// What a url aims at rests on the chapter that it names alone; and the name of a chapter of a volume, before a `#`, names
/// that chapter, from wherever it stands.
pub fn aims_need_their_chapter_alone()
    ensures aim { AimNeedsItsChapterAlone }
    ensures names { NamesAimAtTheirChapters }
{}

/// The lines of a chapter rest, besides itself, on the chapters at which its urls aim, and on those at which the urls of
/// these aim. So an edit of one chapter changes no line of another that neither names it nor names one that does.
pub fn lines_need_the_chapters_aimed_at()
    ensures lines { LinesNeedTheChaptersAimedAt }
    ensures aims_kept { EditsKeepOtherAims }
    ensures lines_kept { EditsKeepOtherLines }
{}

/// Whichever distinct keys the nodes of the documents have, the lines and the dump of a chapter are those of the volume of
/// the documents without keys.
pub fn keys_do_not_matter()
    ensures lines { ChapterLinesAreThoseOfTheTrees }
    ensures dump { ChapterDumpIsThatOfTheTrees }
{}

/// A box without urls has in each volume the texts that it has in its document. A piece with a url has a text by the one
/// element at which it aims, whatever other ids are known, and none where it aims at none.
pub fn texts_are_told_piece_by_piece()
    ensures boxes { BoxesWithoutUrlsStandAlone }
    ensures pieces { PiecesNeedOneTarget }
    ensures empty { PiecesWithoutTargetsAreEmpty }
{}
