//! The cascade over the texts of documents and sheets, worked out by hand.

ghost use Rattle.std.specs.Prelude.{◌≡◌, ◌<◌};
ghost use Rattle.forest.specs.Spots.{IsLive};

use crate::trees::tree_of;
use css_reader::sheet::read_sheet;
use mini_cascade::agent_sheet::AGENT_SHEET;
use mini_cascade::rule_table::RuleTable;
use mini_cascade::style_attributes::inline_declarations;
use mini_cascade::style_of::style_of;
use node_arena::arena::Arena;
use plain_types::content::{Content, Item, QuoteKind};
use plain_types::memory::Memory;
use plain_types::style::{Display, ElementStyle, ListType, Style};
use plain_types::style_ref::StyleRef;
use plain_types::text::Text;
use selector_match::siblings::Siblings;
use std::alloc::Global;
use std::marker::Brand;
use std::sync::ledger::{Blank, Ledger};
use std::test::Fail;
use steps::Steps;

/// A document in which each element has one child at most, a sheet, and the style of the innermost element.
type Styled = (&'static str, &'static str, &'static str);

/// The rules of the user agent: each name in its sheet, alone and in the lists that count.
static AGENT: [Styled; 46] = [
    (r#"<p hidden=""/>"#, "", "none disc"),
    ("<area/>", "", "none disc"),
    ("<base/>", "", "none disc"),
    ("<datalist/>", "", "none disc"),
    ("<head/>", "", "none disc"),
    ("<link/>", "", "none disc"),
    ("<meta/>", "", "none disc"),
    ("<noembed/>", "", "none disc"),
    ("<noframes/>", "", "none disc"),
    ("<param/>", "", "none disc"),
    ("<rp/>", "", "none disc"),
    ("<script/>", "", "none disc"),
    ("<style/>", "", "none disc"),
    ("<template/>", "", "none disc"),
    ("<title/>", "", "none disc"),
    ("<head><title/></head>", "", "none disc"),
    ("<p/>", "", "plain disc"),
    ("<summary/>", "", "plain disc"),
    ("<li/>", "", "list-item disc"),
    ("<ol/>", "", "plain list-item 0 decimal"),
    ("<ul/>", "", "plain list-item 0 disc"),
    ("<menu/>", "", "plain list-item 0 disc"),
    ("<dir/>", "", "plain list-item 0 disc"),
    ("<ol><li/></ol>", "", "list-item decimal"),
    ("<ol><ul/></ol>", "", "plain list-item 0 circle"),
    ("<ol><menu/></ol>", "", "plain list-item 0 circle"),
    ("<ol><dir/></ol>", "", "plain list-item 0 circle"),
    ("<ul><ul/></ul>", "", "plain list-item 0 circle"),
    ("<ul><menu/></ul>", "", "plain list-item 0 circle"),
    ("<ul><dir/></ul>", "", "plain list-item 0 circle"),
    ("<menu><ul/></menu>", "", "plain list-item 0 circle"),
    ("<menu><menu/></menu>", "", "plain list-item 0 circle"),
    ("<menu><dir/></menu>", "", "plain list-item 0 circle"),
    ("<dir><ul/></dir>", "", "plain list-item 0 circle"),
    ("<dir><menu/></dir>", "", "plain list-item 0 circle"),
    ("<dir><dir/></dir>", "", "plain list-item 0 circle"),
    ("<ul><li><menu/></li></ul>", "", "plain list-item 0 circle"),
    ("<ul><ol/></ul>", "", "plain list-item 0 decimal"),
    ("<ul><p/></ul>", "", "plain disc"),
    ("<ul><ol><dir/></ol></ul>", "", "plain list-item 0 square"),
    ("<ol><ul><menu/></ul></ol>", "", "plain list-item 0 square"),
    (
        "<menu><dir><ul/></dir></menu>",
        "",
        "plain list-item 0 square",
    ),
    (
        "<dir><menu><dir/></menu></dir>",
        "",
        "plain list-item 0 square",
    ),
    ("<ol><ol><ul/></ol></ol>", "", "plain list-item 0 square"),
    (
        "<ul><dir><menu><ol/></menu></dir></ul>",
        "",
        "plain list-item 0 decimal",
    ),
    ("<q/>", "", "plain disc ::before open ::after close"),
];

/// Attributes of lists, and sheets of authors.
static AUTHORS: [Styled; 5] = [
    (r#"<ol start="3"/>"#, "", "plain list-item 2 decimal"),
    (
        r#"<ol start="3"/>"#,
        "ol{counter-reset:list-item 7}",
        "plain list-item 7 decimal",
    ),
    (
        r#"<ul type="Square"/>"#,
        "ul{quotes:none}",
        "plain list-item 0 square",
    ),
    (
        r#"<ol start="3" style="counter-reset:list-item 7"/>"#,
        "",
        "plain list-item 7 decimal",
    ),
    (
        r#"<ol><li style="content:open-quote"/></ol>"#,
        "",
        "list-item decimal",
    ),
];

/// The document in an arena; none where the text is no document.
pub fn arena_of(alloc: Global, text: &str) -> Result<Option<Arena>, Memory> {
    match tree_of(alloc, text)? {
        Some(tree) => Ok(Some(Arena::from_tree(alloc, &tree)?)),
        None => Ok(None),
    }
}

/// The sheet of a text, with its rules filed.
pub fn table_of(alloc: Global, sheet: &str) -> Result<RuleTable, Memory> {
    RuleTable::new(alloc, read_sheet(alloc, sheet)?)
}

/// The style of an element under its parent's, with its `style` attribute.
pub fn style_at<L: Ledger>(
    alloc: Global,
    arena: &Arena,
    agent: &RuleTable,
    author: &RuleTable,
    parent: Option<&Style>,
    key: usize,
    steps: &mut Steps<L>,
) -> Result<ElementStyle, Memory>
    requires { IsLive arena.now.tree key }
{
    let inline = inline_declarations(alloc, arena, key)?;
    style_of(
        alloc,
        &mut Siblings::new(alloc, arena),
        agent,
        author,
        inline.as_slice(),
        parent,
        key,
        steps,
    )
}

/// The style of the innermost element.
fn innermost_style<L: Ledger>(
    alloc: Global,
    arena: &Arena,
    agent: &RuleTable,
    author: &RuleTable,
    steps: &mut Steps<L>,
) -> Result<ElementStyle, Memory> {
    let mut at = arena.root();
    let mut style = style_at(alloc, arena, agent, author, None, at, steps)?;
    'down: for _level in 0..4 {
        if let Some(child) = arena.child(at, 0) {
            style = style_at(alloc, arena, agent, author, Some(&style.own), child, steps)?;
            at = child;
        }
    }
    Ok(style)
}

/// The quotation marks of a pseudo-element, if it has some.
fn show_quotes(pseudo: &str, content: &Content, out: &mut Text) -> Result<(), Memory> {
    let Content::Items(items) = content else {
        return Ok(());
    };
    out.push(' ')?;
    out.push_str(pseudo)?;
    for item in items.as_slice() {
        out.push_str(match item {
            Item::Quote(QuoteKind::Open) => " open",
            Item::Quote(QuoteKind::Close) => " close",
            _ => " other",
        })?;
    }
    Ok(())
}

/// `display`, the counters that are reset, `list-style-type`, and the quotation marks of pseudo-elements.
fn shown(alloc: Global, style: &ElementStyle) -> Result<Text, Memory> {
    let display = match style.own.display {
        Display::Absent => "none",
        Display::ListItem => "list-item",
        Display::Plain => "plain",
    };
    let mut out = Text::from_str(alloc, display)?;
    for reset in style.own.resets.as_slice() {
        out.push(' ')?;
        out.push_str(reset.name.as_str())?;
        if let Some(value) = reset.value {
            out.push_str(format!(in alloc; " {value}")?.as_str())?;
        }
    }
    if let ListType::Style(StyleRef::Name(name)) = &style.own.list_type {
        out.push(' ')?;
        out.push_str(name.as_str())?;
    }
    show_quotes("::before", &style.before.content, &mut out)?;
    show_quotes("::after", &style.after.content, &mut out)?;
    Ok(out)
}

/// The style of the innermost element under the user agent's sheet and the author's.
fn shown_style<L: Ledger>(
    rt: &HostRuntime,
    blank: Blank,
    arena: &Arena,
    author: &RuleTable,
) -> Result<Text, Memory>
    requires name { blank.name ≡ L.name }
    requires parts { blank.parts ≡ L.parts }
    requires some { 0 < L.parts }
{
    let alloc = rt.alloc();
    let mut steps = Steps::<L>::open(rt, blank);
    let agent = table_of(alloc, AGENT_SHEET)?;
    let style = innermost_style(alloc, arena, &agent, author, &mut steps)?;
    shown(alloc, &style)
}

/// Whether the innermost element has this style.
fn is_styled(
    rt: &HostRuntime,
    document: &str,
    sheet: &str,
    expected: &str,
) -> Result<bool, Memory> {
    let Some(arena) = arena_of(rt.alloc(), document)? else {
        return Ok(false);
    };
    let author = table_of(rt.alloc(), sheet)?;
    let shown = shown_style::<Brand>(rt, Blank::new(1), &arena, &author)?;
    Ok(shown.as_str() == expected)
}

/// The place of the first row with another style; none where each is as it says.
fn first_wrong(rt: &HostRuntime, table: &[Styled]) -> Result<Option<usize>, Memory> {
    for (place, (document, sheet, expected)) in table.iter().enumerate() {
        if !is_styled(rt, document, sheet, expected)? {
            return Ok(Some(place));
        }
    }
    Ok(None)
}

#[test]
fn the_user_agent_has_nine_rules(rt: HostRuntime) -> Result<(), Fail> {
    let sheet = read_sheet(rt.alloc(), AGENT_SHEET)?;
    assert_eq!(rt; sheet.rules.len(), 9);
    assert!(rt; sheet.styles.is_empty());
    assert_eq!(rt; first_wrong(&rt, &AGENT)?, None);
    Ok(())
}

#[test]
fn authors_and_attributes_style_lists(rt: HostRuntime) -> Result<(), Fail> {
    assert_eq!(rt; first_wrong(&rt, &AUTHORS)?, None);
    Ok(())
}
