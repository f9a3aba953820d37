//! Scripts, and what is told of their commands: each with the number of its line; or the number of the bad
//! line. And runs that are made up.

use crate::pushing::{push_all, push_number};
use edit_script::action::Action;
use edit_script::command::Command;
use edit_script::fault::ScriptFault;
use edit_script::generator::{GeneratedRun, generate};
use edit_script::script_kind::ScriptKind;
use edit_script::{read_book_script, read_history_script, read_script};
use plain_types::attr::Attr;
use plain_types::edit::Edit;
use plain_types::list::List;
use plain_types::memory::Memory;
use plain_types::node::NodeView;
use plain_types::path::Path;
use plain_types::text::Text;
use plain_types::tree::Tree;
use std::alloc::Global;
use std::fmt::InlineText;
use std::test::Fail;

/// A script, and what is told of it.
type Told = (&'static str, &'static str);

static FORMS: [Told; 15] = [
    ("show", "1 show;"),
    ("insert / 0 <p>a</p>", "1 insert / 0 0<p>1\"a\";"),
    ("insert /0/12 3 a &amp; b", "1 insert /0/12 3 0\"a & b\";"),
    ("insert / 4294967295  ", "1 insert / 4294967295 0\" \";"),
    ("remove /", "1 remove /;"),
    ("remove /0/4294967295", "1 remove /0/4294967295;"),
    ("move /1 / 0", "1 move /1 / 0;"),
    ("move / /0/0 10", "1 move / /0/0 10;"),
    ("set / id x", "1 set / id=x;"),
    ("set /0 title a  b", "1 set /0 title=a  b;"),
    ("set /7 :_-.9 &amp;<", "1 set /7 :_-.9=&amp;<;"),
    ("set / a \u{fffe}\u{1}", "1 set / a=\u{fffe}\u{1};"),
    ("unset /1 class", "1 unset /1 class;"),
    ("sheet a.css", "1 sheet a.css;"),
    ("sheet  a b ", "1 sheet  a b ;"),
];

static LINES: [Told; 18] = [
    ("", ""),
    ("\u{feff}", ""),
    ("\r\n", ""),
    ("#show", ""),
    ("show\n", "1 show;"),
    ("show\r\n", "1 show;"),
    ("\u{feff}show", "1 show;"),
    ("\u{feff}# x\nshow", "2 show;"),
    ("\n\n# x\n \t \nshow\n", "5 show;"),
    ("show\n\r\nshow", "1 show;3 show;"),
    ("show\nremove /0\nsheet x", "1 show;2 remove /0;3 sheet x;"),
    // values
    ("set / a", "1 set / a=;"),
    ("set / a ", "1 set / a=;"),
    ("set / a  ", "1 set / a= ;"),
    ("set / a b \r\n", "1 set / a=b ;"),
    ("set / a b\r\r\n", "1 set / a=b\r;"),
    ("set / a b\r", "1 set / a=b\r;"),
    ("set / a b\rc\n", "1 set / a=b\rc;"),
];

static BAD_INSERTS: [&str; 18] = [
    "insert",
    "insert /",
    "insert / 0",
    "insert / 0 ",
    "insert / 0 <a>",
    "insert / 0 <a/><b/>",
    "insert / 0 <!-- x -->",
    "insert / 00 <a/>",
    "insert / 01 <a/>",
    "insert / +1 <a/>",
    "insert / -1 <a/>",
    "insert / 4294967296 <a/>",
    "insert / 18446744073709551616 <a/>",
    "insert  / 0 <a/>",
    "insert /  0 <a/>",
    "insert 0 0 <a/>",
    "insert /0/ 0 <a/>",
    "inserts / 0 <a/>",
];

static BAD_PATHS: [&str; 17] = [
    "remove",
    "remove ",
    "remove 0",
    "remove //",
    "remove /0/",
    "remove /00",
    "remove /4294967296",
    "remove / ",
    "remove /a",
    "remove /0 x",
    "remove\t/0",
    "move /0 /",
    "move /0 / ",
    "move /0  / 0",
    "move /0 / 0 ",
    "move /0 / 01",
    "move 0 / 0",
];

static BAD_WORDS: [&str; 17] = [
    "set /",
    "set / ",
    "set / 1a x",
    "set / a=b x",
    "set / a\u{fffe} x",
    "set  / a",
    "set 0 a",
    "unset /",
    "unset / ",
    "unset / a ",
    "unset / a b",
    "unset / -a",
    "sheet",
    "sheet ",
    "shows",
    "Show",
    "\u{feff}\u{feff}show",
];

static BAD_BLANKS: [&str; 7] = [
    "show ",
    " show",
    "show\t",
    "show\r",
    "show\u{a0}",
    " # x",
    "\r",
];

/// In a script of edits these are bad lines.
static HISTORY: [Told; 6] = [
    ("undo", "1 undo;"),
    ("redo", "1 redo;"),
    ("undo\r\n\nredo\n", "1 undo;3 redo;"),
    ("show\nundo\nundo\nredo", "1 show;2 undo;3 undo;4 redo;"),
    ("\u{feff}undo\n#redo", "1 undo;"),
    ("undo\nredo \n", "bad 2"),
];

static BAD_HISTORY: [&str; 8] = [
    "undo ",
    " undo",
    "Undo",
    "undos",
    "und",
    "redo 1",
    "redo\t",
    "undo redo",
];

/// In a script of edits, and in one with a history, lines that begin with `in` are bad.
static BOOK: [Told; 6] = [
    ("in a", "1 in a;"),
    ("in  a b ", "1 in  a b ;"),
    ("in in x\r\n\nin #\n", "1 in in x;3 in #;"),
    ("\u{feff}in \u{e9}\n#in a", "1 in \u{e9};"),
    (
        "show\nin b\ninsert / 0 <h1/>\nin a\nshow\nin c",
        "1 show;2 in b;3 insert / 0 0<h1>;4 in a;5 show;6 in c;",
    ),
    ("in a\nin \nin", "bad 2"),
];

static BAD_BOOK: [&str; 10] = [
    "in", "in ", " in a", "In a", "in\ta", "ina", "i a", "int a", "undo", "redo",
];

static FIRST_BAD: [Told; 4] = [
    ("show\n\nsho\nremove\n", "bad 3"),
    ("# x\r\nshow \r\nshow", "bad 2"),
    ("show\nset / a b\nunset", "bad 3"),
    ("x\ny\nz", "bad 1"),
];

fn push_attrs(attrs: &[Attr], told: &mut Text) -> Result<(), Memory> {
    for attr in attrs {
        push_all(&[" ", attr.name.as_str(), "=", attr.value.as_str()], told)?;
    }
    Ok(())
}

fn push_node(node: NodeView<'_>, told: &mut Text) -> Result<(), Memory> {
    match node {
        NodeView::Element { name, attrs } => {
            push_all(&["<", name], told)?;
            push_attrs(attrs, told)?;
            told.push('>')
        }
        NodeView::Text { characters } => push_all(&["\"", characters, "\""], told),
    }
}

/// The nodes in tree order, each behind its depth.
fn push_tree(tree: &Tree, told: &mut Text) -> Result<(), Memory> {
    for place in 0..tree.len() {
        push_number(tree.depth(place), told)?;
        push_node(tree.node(place), told)?;
    }
    Ok(())
}

fn push_path(path: &Path, told: &mut Text) -> Result<(), Memory> {
    told.push(' ')?;
    if path.as_slice().is_empty() {
        told.push('/')?;
    }
    for position in path.as_slice() {
        told.push('/')?;
        push_number(*position, told)?;
    }
    Ok(())
}

fn push_index(index: usize, told: &mut Text) -> Result<(), Memory> {
    told.push(' ')?;
    push_number(index, told)
}

/// What an edit is, without its end.
fn push_change(edit: &Edit, told: &mut Text) -> Result<(), Memory> {
    match edit {
        Edit::Insert {
            parent,
            index,
            fragment,
        } => {
            told.push_str("insert")?;
            push_path(parent, told)?;
            push_index(*index, told)?;
            told.push(' ')?;
            push_tree(fragment, told)
        }
        Edit::Remove { path } => {
            told.push_str("remove")?;
            push_path(path, told)
        }
        Edit::Move {
            from,
            parent,
            index,
        } => {
            told.push_str("move")?;
            push_path(from, told)?;
            push_path(parent, told)?;
            push_index(*index, told)
        }
        Edit::SetAttr { path, name, value } => {
            told.push_str("set")?;
            push_path(path, told)?;
            push_all(&[" ", name.as_str(), "=", value.as_str()], told)
        }
        Edit::UnsetAttr { path, name } => {
            told.push_str("unset")?;
            push_path(path, told)?;
            push_all(&[" ", name.as_str()], told)
        }
        Edit::ReplaceSheet { text } => push_all(&["replace ", text.as_str()], told),
    }
}

fn push_action(action: &Action, told: &mut Text) -> Result<(), Memory> {
    match action {
        Action::Change(edit) => push_change(edit, told),
        Action::SheetFile(name) => push_all(&["sheet ", name.as_str()], told),
        Action::Show => told.push_str("show"),
        Action::Undo => told.push_str("undo"),
        Action::Redo => told.push_str("redo"),
        Action::Enter(name) => push_all(&["in ", name.as_str()], told),
    }
}

fn push_commands(commands: &[Command], told: &mut Text) -> Result<(), Memory> {
    for command in commands {
        push_number(command.line, told)?;
        told.push(' ')?;
        push_action(&command.action, told)?;
        told.push(';')?;
    }
    Ok(())
}

fn read(alloc: Global, kind: ScriptKind, script: &str) -> Result<List<Command>, ScriptFault> {
    match kind {
        ScriptKind::Edits => read_script(alloc, script),
        ScriptKind::History => read_history_script(alloc, script),
        ScriptKind::Book => read_book_script(alloc, script),
    }
}

/// The commands of a script, each behind the number of its line; or the number of the bad line.
fn told(alloc: Global, kind: ScriptKind, script: &str) -> Result<Text, Memory> {
    let mut out = Text::new(alloc);
    match read(alloc, kind, script) {
        Ok(commands) => push_commands(commands.as_slice(), &mut out)?,
        Err(ScriptFault::BadLine { number }) => {
            out.push_str("bad ")?;
            push_number(number, &mut out)?;
        }
        Err(ScriptFault::Memory) => return Err(Memory),
    }
    Ok(out)
}

/// The first script of this kind of which something else is told.
fn first_wrong(
    alloc: Global,
    kind: ScriptKind,
    table: &[Told],
) -> Result<Option<&'static str>, Memory> {
    for (script, expected) in table {
        if told(alloc, kind, script)?.as_str() != *expected {
            return Ok(Some(script));
        }
    }
    Ok(None)
}

#[test]
fn scripts(rt: HostRuntime) -> Result<(), Fail> {
    assert_eq!(rt; first_wrong(rt.alloc(), ScriptKind::Edits, &FORMS)?, None);
    assert_eq!(rt; first_wrong(rt.alloc(), ScriptKind::Edits, &LINES)?, None);
    assert_eq!(rt;
        first_wrong(rt.alloc(), ScriptKind::Edits, &FIRST_BAD)?,
        None
    );
    Ok(())
}

#[test]
fn history_scripts(rt: HostRuntime) -> Result<(), Fail> {
    assert_eq!(rt; first_wrong(rt.alloc(), ScriptKind::History, &FORMS)?, None);
    assert_eq!(rt; first_wrong(rt.alloc(), ScriptKind::History, &LINES)?, None);
    assert_eq!(rt;
        first_wrong(rt.alloc(), ScriptKind::History, &FIRST_BAD)?,
        None
    );
    assert_eq!(rt;
        first_wrong(rt.alloc(), ScriptKind::History, &HISTORY)?,
        None
    );
    Ok(())
}

#[test]
fn book_scripts(rt: HostRuntime) -> Result<(), Fail> {
    assert_eq!(rt; first_wrong(rt.alloc(), ScriptKind::Book, &FORMS)?, None);
    assert_eq!(rt; first_wrong(rt.alloc(), ScriptKind::Book, &LINES)?, None);
    assert_eq!(rt;
        first_wrong(rt.alloc(), ScriptKind::Book, &FIRST_BAD)?,
        None
    );
    assert_eq!(rt; first_wrong(rt.alloc(), ScriptKind::Book, &BOOK)?, None);
    Ok(())
}

/// The first line that is a command of a script of this kind after all.
fn first_command(
    alloc: Global,
    kind: ScriptKind,
    lines: &[&'static str],
) -> Result<Option<&'static str>, Memory> {
    for line in lines {
        if told(alloc, kind, line)?.as_str() != "bad 1" {
            return Ok(Some(line));
        }
    }
    Ok(None)
}

#[test]
fn near_misses(rt: HostRuntime) -> Result<(), Fail> {
    assert_eq!(rt;
        first_command(rt.alloc(), ScriptKind::Edits, &BAD_INSERTS)?,
        None
    );
    assert_eq!(rt;
        first_command(rt.alloc(), ScriptKind::Edits, &BAD_PATHS)?,
        None
    );
    assert_eq!(rt;
        first_command(rt.alloc(), ScriptKind::Edits, &BAD_WORDS)?,
        None
    );
    assert_eq!(rt;
        first_command(rt.alloc(), ScriptKind::Edits, &BAD_BLANKS)?,
        None
    );
    assert_eq!(rt;
        first_command(rt.alloc(), ScriptKind::Edits, &["undo", "redo"])?,
        None
    );
    assert_eq!(rt;
        first_command(rt.alloc(), ScriptKind::Edits, &BAD_HISTORY)?,
        None
    );
    assert_eq!(rt;
        first_command(rt.alloc(), ScriptKind::History, &BAD_HISTORY)?,
        None
    );
    assert_eq!(rt;
        first_command(rt.alloc(), ScriptKind::Book, &BAD_BOOK)?,
        None
    );
    assert_eq!(rt;
        first_command(rt.alloc(), ScriptKind::Edits, &["in a", "in"])?,
        None
    );
    assert_eq!(rt;
        first_command(rt.alloc(), ScriptKind::History, &["in a", "in"])?,
        None
    );
    Ok(())
}

/// Each fault, in words for a person.
#[test]
fn faults_have_messages(rt: HostRuntime) -> Result<(), Fail> {
    let message: InlineText<64> = InlineText::of(ScriptFault::BadLine { number: 3 });
    assert_eq!(rt; message.as_str(), "line 3 is no command");
    let message: InlineText<64> = InlineText::of(ScriptFault::Memory);
    assert_eq!(rt; message.as_str(), "out of memory");
    Ok(())
}

/// How many edits a run of seed 1 has, its document, and the first two of its edits.
type Made = (u32, &'static str, &'static str);

/// The second is worked out by hand from the first quotients of seed 1, which the law
/// [`edit_script::laws::first_quotients`] has.
static RUNS: [Made; 2] = [
    (
        2,
        "0<body>1<section id=s0>2<h2>3\"0\"2<ol>3<li>3<li>3<li>2<p>3<a href=#s0>",
        "insert /0/1 3 0<li>;move /0/1/2 /0/1 0;",
    ),
    (
        10,
        "0<body>1<section id=s0>2<h2>3\"0\"2<ol>3<li>3<li>3<li>2<p>3<a href=#s0>1<section id=s1>2<h2>3\"1\"2<ol>3<li>3<li>3<li>2<p>3<a href=#s0>",
        "remove /1/1/3;insert /1/1 3 0<li>;",
    ),
];

/// Appends the first two of the edits.
fn push_first_edits(edits: &[Edit], told: &mut Text) -> Result<(), Memory> {
    for edit in edits.iter().take(2) {
        push_change(edit, told)?;
        told.push(';')?;
    }
    Ok(())
}

/// Whether the run has this document, as many edits, and these first.
fn is_made(alloc: Global, run: &GeneratedRun, row: &Made) -> Result<bool, Memory> {
    let (count, document, first_edits) = *row;
    let mut tree = Text::new(alloc);
    push_tree(&run.document, &mut tree)?;
    let mut edits = Text::new(alloc);
    push_first_edits(run.edits.as_slice(), &mut edits)?;
    Ok(
        tree.as_str() == document
            && edits.as_str() == first_edits
            && run.edits.len() == count as usize,
    )
}

/// The count of the first run that is another.
fn first_wrong_run(alloc: Global, table: &[Made]) -> Result<Option<u32>, Memory> {
    for row in table {
        if !is_made(alloc, &generate(alloc, 1, row.0)?, row)? {
            return Ok(Some(row.0));
        }
    }
    Ok(None)
}

#[test]
fn runs(rt: HostRuntime) -> Result<(), Fail> {
    assert_eq!(rt; first_wrong_run(rt.alloc(), &RUNS)?, None);
    Ok(())
}
