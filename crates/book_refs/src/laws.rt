//! What holds of every volume. The functions do nothing: each contract is a law.

ghost use Rattle.book_definitions.specs.Chapters.{IsVolume};
ghost use Rattle.book_refs.specs.Laws.{WorkIsThatOfTheTrees};

use crate::volume::Volume;

/// Each name of a chapter can stand before a `#`, no two chapters have one name, and no two nodes of a chapter have one key.
pub fn volume_holds_chapters(volume: &Volume)
    ensures volume { IsVolume volume.now }
{
    let _chapters = &volume.chapters;
}

/// Whichever distinct keys the nodes of the documents have, showing a chapter is as much work as in the volume of the
/// documents without keys.
pub fn work_is_that_of_the_trees()
    ensures work { WorkIsThatOfTheTrees }
{}
