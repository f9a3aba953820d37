//! Trees whose elements may still be open.

ghost use Rattle.std.specs.Prelude.{◌≡◌, ◌≢◌, ◌⊎◌, ◌<◌, [], IsTrue, IfOk, IfSome, OnOk, length};
ghost use Rattle.std.specs.Str.{chars, IsUtf8};
ghost use Rattle.plain_types.specs.Building.{accepts_node};
ghost use Rattle.plain_types.specs.Tree.{HasDistinctNames};
ghost use Rattle.xml_definitions.specs.Items.{doctype, end_tag, start_tag, empty_tag, reference, section, plain_character};
ghost use Rattle.xhtml_items.specs.Tokens.{item_of};
ghost use Rattle.xhtml_reader.specs.Machinery.Keeping.{Adds, Advances, Finishes, HasSoundNames, Keeps, accepts_characters, accepts_doctype, accepts_element, chars_of, with_last_text, is_fragment, kept, with_text};
ghost use Rattle.xhtml_reader.specs.Machinery.States.{at_start};

use crate::kind::Kind;
use plain_types::attr::Attr;
use plain_types::list::List;
use plain_types::memory::Memory;
use plain_types::text::Text;
use plain_types::tree::Tree;
use plain_types::tree_builder::TreeBuilder;
use reading::characters::is_blank;
use std::alloc::Global;
use std::mem;
use xhtml_items::item::first_item;
use xhtml_items::passing::split_plain;
use xhtml_items::token::Token;

/// What the items so far have come to: the nodes, the names of the open elements, the outermost first,
/// and the characters that are in no node yet.
#[derive(Drop)]
pub(crate) struct OpenTree<'a> {
    pub(crate) kind: Kind,
    pub(crate) has_doctype: bool,
    pub(crate) builder: TreeBuilder,
    pub(crate) names: Vec<&'a str>,
    pub(crate) characters: Text,
}

impl<'a> OpenTree<'a> {
    pub(crate) fn new(alloc: Global, kind: Kind) -> Self
        ensures keeps { Keeps (kept result) at_start }
        ensures kind { result.kind ≡ kind }
    {
        OpenTree {
            kind,
            has_doctype: false,
            builder: TreeBuilder::new(alloc),
            names: Vec::new(alloc),
            characters: Text::new(alloc),
        }
    }

    fn is_fragment(&self) -> bool
        ensures { result ≡ is_fragment self.now.kind }
    {
        matches!(self.kind, Kind::Fragment)
    }

    /// Whether an element may come now.
    fn accepts_element(&self) -> bool
        ensures { result ≡ accepts_element (kept self.now) }
    {
        self.builder.is_inside()
            || self.builder.accepts_node() && self.characters.as_str().is_empty()
    }

    /// Whether characters may come now, some or none.
    fn accepts_characters(&self, are_some: bool) -> bool
        ensures { result ≡ accepts_characters (kept self.now) are_some }
    {
        self.builder.is_inside() || self.is_fragment() && (!are_some || self.builder.accepts_node())
    }

    /// Whether a doctype may come now.
    fn accepts_doctype(&self) -> bool
        ensures { result ≡ accepts_doctype (kept self.now) }
    {
        !self.is_fragment()
            && !self.has_doctype
            && self.builder.accepts_node()
            && !self.builder.is_inside()
    }

    /// Puts the waiting characters into a text of their own.
    fn put_text(&mut self, alloc: Global) -> Result<(), Memory>
        requires { self.old.characters ≡ [] ⊎ IsTrue (accepts_node self.old.builder) }
        ensures built { OnOk result (self.new.builder ≡ with_text self.old.builder self.old.characters) }
        ensures characters { OnOk result (self.new.characters ≡ []) }
        ensures names { (kept self.new).names ≡ (kept self.old).names }
        ensures kind { self.new.kind ≡ self.old.kind }
        ensures doctype { self.new.has_doctype ≡ self.old.has_doctype }
    {
        if !self.characters.as_str().is_empty() {
            let characters = mem::replace(&mut self.characters, Text::new(alloc));
            self.builder.text(characters)?;
        }
        Ok(())
    }

    /// Adds the start of an element, if one may come now.
    fn add_start(&mut self, alloc: Global, name: &'a str, attrs: List<Attr>) -> Result<bool, Memory>
        requires { HasDistinctNames attrs }
        ensures adds { IfOk result (λ fits. Adds (kept self.old) (start_tag (chars name.now) attrs) fits (kept self.new)) }
        ensures kind { self.new.kind ≡ self.old.kind }
    {
        if !self.accepts_element() {
            return Ok(false);
        }
        self.put_text(alloc)?;
        self.builder.start(Text::from_str(alloc, name)?, attrs)?;
        self.names.push(name)?;
        Ok(true)
    }

    /// Adds an element without content, if one may come now.
    fn add_empty(&mut self, alloc: Global, name: &str, attrs: List<Attr>) -> Result<bool, Memory>
        requires { HasDistinctNames attrs }
        ensures adds { IfOk result (λ fits. Adds (kept self.old) (empty_tag (chars name.now) attrs) fits (kept self.new)) }
        ensures kind { self.new.kind ≡ self.old.kind }
    {
        if !self.accepts_element() {
            return Ok(false);
        }
        self.put_text(alloc)?;
        self.builder.start(Text::from_str(alloc, name)?, attrs)?;
        self.builder.end();
        Ok(true)
    }

    /// Ends the innermost element, if it has this name.
    fn add_end(&mut self, alloc: Global, name: &str) -> Result<bool, Memory>
        ensures adds { IfOk result (λ fits. Adds (kept self.old) (end_tag (chars name.now)) fits (kept self.new)) }
        ensures kind { self.new.kind ≡ self.old.kind }
    {
        if !self.builder.is_inside() {
            return Ok(false);
        }
        let Some(innermost) = self.names.last() else {
            return Ok(false);
        };
        if *innermost != name {
            return Ok(false);
        }
        self.put_text(alloc)?;
        self.builder.end();
        self.names.pop();
        Ok(true)
    }

    /// Adds the doctype, if it may come now.
    fn add_doctype(&mut self) -> bool
        ensures adds { Adds (kept self.old) doctype result (kept self.new) }
        ensures kind { self.new.kind ≡ self.old.kind }
    {
        if !self.accepts_doctype() {
            return false;
        }
        self.has_doctype = true;
        true
    }

    /// Adds the character that is referred to, if it may come now.
    fn add_reference(&mut self, character: char) -> Result<bool, Memory>
        ensures adds { IfOk result (λ fits. Adds (kept self.old) (reference character) fits (kept self.new)) }
        ensures kind { self.new.kind ≡ self.old.kind }
    {
        if !self.accepts_characters(true) {
            return Ok(false);
        }
        self.characters.push(character)?;
        Ok(true)
    }

    /// Adds the characters of a section, if they may come now.
    fn add_section(&mut self, characters: &str) -> Result<bool, Memory>
        ensures adds { IfOk result (λ fits. Adds (kept self.old) (section (chars characters.now)) fits (kept self.new)) }
        ensures kind { self.new.kind ≡ self.old.kind }
    {
        if !self.accepts_characters(!characters.is_empty()) {
            return Ok(false);
        }
        self.characters.push_str(characters)?;
        Ok(true)
    }

    /// Adds a plain character, if it may come now; round the root of a document only a blank may.
    fn add_character(&mut self, character: char) -> Result<bool, Memory>
        ensures adds { IfOk result (λ fits. Adds (kept self.old) (plain_character character) fits (kept self.new)) }
        ensures kind { self.new.kind ≡ self.old.kind }
    {
        if !self.accepts_characters(true) {
            return Ok(!self.is_fragment() && is_blank(character));
        }
        self.characters.push(character)?;
        Ok(true)
    }

    /// Adds an item, if it may come now.
    fn add(&mut self, alloc: Global, token: Token<'a>) -> Result<bool, Memory>
        requires { HasSoundNames token }
        ensures adds { IfOk result (λ fits. Adds (kept self.old) (item_of token.entry) fits (kept self.new)) }
        ensures kind { self.new.kind ≡ self.old.kind }
    {
        match token {
            Token::Doctype => Ok(self.add_doctype()),
            Token::Comment | Token::Instruction => Ok(true),
            Token::StartTag { name, attrs } => self.add_start(alloc, name, attrs),
            Token::EmptyTag { name, attrs } => self.add_empty(alloc, name, attrs),
            Token::EndTag { name } => self.add_end(alloc, name),
            Token::Reference(character) => self.add_reference(character),
            Token::Section(characters) => self.add_section(characters),
            Token::Character(character) => self.add_character(character),
        }
    }

    /// Adds what the text goes on with, an item or several plain characters, if it may come now, and
    /// gives the text after it.
    pub(crate) fn advance(
        &mut self,
        alloc: Global,
        text: &'a str,
    ) -> Result<Option<&'a str>, Memory>
        ensures advances { IfOk result (λ after. Advances (kept self.old) (chars text.now) (chars_of after) (kept self.new)) }
        ensures kind { self.new.kind ≡ self.old.kind }
        ensures shorter { IfOk result (λ after. IfSome after (λ rest. length (chars rest.now) < length (chars text.now))) }
        ensures text { IfOk result (λ after. IfSome after (λ rest. IsUtf8 rest.now)) }
    {
        if self.accepts_characters(true) {
            let (characters, after) = split_plain(text);
            if !characters.is_empty() {
                self.characters.push_str(characters)?;
                return Ok(Some(after));
            }
        }
        match first_item(alloc, text) {
            Err(memory) => Err(memory),
            Ok(None) => Ok(None),
            Ok(Some((token, after))) => {
                if self.add(alloc, token)? {
                    Ok(Some(after))
                } else {
                    Ok(None)
                }
            }
        }
    }

    /// Puts the characters that wait into a text, where no node has come before.
    fn end_text(&mut self, alloc: Global) -> Result<(), Memory>
        ensures { OnOk result (self.new.builder ≡ with_last_text (kept self.old)) }
    {
        if self.builder.accepts_node() && !self.builder.is_inside() {
            self.put_text(alloc)?;
        }
        Ok(())
    }

    /// The tree, if the text may end now.
    pub(crate) fn finish(mut self, alloc: Global) -> Result<Option<Tree>, Memory>
        ensures { IfOk result (Finishes (kept self.entry)) }
    {
        self.end_text(alloc)?;
        let OpenTree { builder, .. } = self;
        if builder.is_whole() {
            Ok(Some(builder.finish()))
        } else {
            Ok(None)
        }
    }
}
