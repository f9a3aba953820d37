//! From a normalized text to its tree.

ghost use Rattle.std.specs.Prelude.{IfOk, IfErr};
ghost use Rattle.std.specs.Str.{chars};
ghost use Rattle.xml_definitions.specs.Faults.{FailsAt};
ghost use Rattle.xml_definitions.specs.Normalized.{normalized};
ghost use Rattle.xml_definitions.specs.Texts.{HasTree};
ghost use Rattle.xhtml_reader.specs.Fault.{IsFault};
ghost use Rattle.xhtml_reader.specs.Machinery.States.{allows};

use crate::fault::DocFault;
use crate::kind::Kind;
use crate::open_tree::OpenTree;
use crate::place::malformed;
use crate::prepare::{has_line_feeds_alone, with_line_feeds, without_mark};
use plain_types::tree::Tree;
use std::alloc::Global;

/// The tree of a text that is normalized.
fn read_normalized(alloc: Global, kind: Kind, text: &str) -> Result<Tree, DocFault>
    ensures found { IfOk result (HasTree (allows kind) (chars text.now)) }
    ensures fault { IfErr result (IsFault (FailsAt (allows kind) (chars text.now))) }
{
    let mut open = OpenTree::new(alloc, kind);
    let mut rest = text;
    'items: while !rest.is_empty() {
        let Some(after) = open.advance(alloc, rest)? else {
            return Err(malformed(text, rest));
        };
        rest = after;
    }
    let Some(tree) = open.finish(alloc)? else {
        return Err(malformed(text, rest));
    };
    Ok(tree)
}

/// The tree of a text.
pub(crate) fn read(alloc: Global, kind: Kind, text: &str) -> Result<Tree, DocFault>
    ensures found { IfOk result (HasTree (allows kind) (normalized (chars text.now))) }
    ensures fault { IfErr result (IsFault (FailsAt (allows kind) (normalized (chars text.now)))) }
{
    let text = without_mark(text);
    if has_line_feeds_alone(text) {
        return read_normalized(alloc, kind, text);
    }
    let normalized = with_line_feeds(alloc, text)?;
    read_normalized(alloc, kind, normalized.as_str())
}
