//! The elements at which urls aim.

ghost use Rattle.std.specs.Prelude.{◌≡◌, IfSome, IsSome, option_copied, option_map};
ghost use Rattle.std.specs.Str.{chars};
ghost use Rattle.book_definitions.specs.Aims.{chapter_at, chapter_named, target};
ghost use Rattle.node_arena.specs.Nodes.{name_of};
ghost use Rattle.book_refs.specs.Machinery.TargetElements.{element_aimed_at};

use crate::evaluated_chapter::EvaluatedChapter;

/// An element at which a url aims: its chapter, and its key there.
#[derive(Drop)]
pub(crate) struct TargetElement<'a> {
    pub(crate) chapter: &'a EvaluatedChapter,
    pub(crate) key: usize,
}

/// The chapter of this name, compared as written.
fn chapter_named<'a>(volume: &'a [EvaluatedChapter], name: &str) -> Option<&'a EvaluatedChapter>
    ensures chapter { option_copied result ≡ chapter_named volume.now (chars name.now) }
{
    volume.iter().find(|chapter| chapter.is_named(name))
}

/// The chapter that the text before a `#` names: where it is empty, the one in which the url stands.
fn chapter_at<'a>(
    volume: &'a [EvaluatedChapter],
    own: &'a EvaluatedChapter,
    name: &str,
) -> Option<&'a EvaluatedChapter>
    ensures chapter { option_copied result ≡ chapter_at volume.now own.now (chars name.now) }
{
    if name.is_empty() {
        return Some(own);
    }
    chapter_named(volume, name)
}

/// The element at which a url of a chapter aims. It takes no memory, and time linear in the number of chapters, in the url,
/// and in the elements that have its id, for each of them in how deep it is.
pub(crate) fn target<'a>(
    volume: &'a [EvaluatedChapter],
    own: &'a EvaluatedChapter,
    url: &str,
) -> Option<TargetElement<'a>>
    ensures target { option_map element_aimed_at result ≡ target volume.now own.now (chars url.now) }
    ensures element { IfSome result (λ there. IsSome (name_of there.chapter.now.document there.key)) }
{
    let (name, id) = url.split_once('#')?;
    let chapter = chapter_at(volume, own, name)?;
    let key = chapter.first(id)?;
    Some(TargetElement { chapter, key })
}
