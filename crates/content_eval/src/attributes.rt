//! Attributes of the originating element.

ghost use Rattle.std.specs.Prelude.{◌≡◌, IfOk};
ghost use Rattle.std.specs.Str.{chars};
ghost use Rattle.plain_types.specs.Attributes.{is_named};
ghost use Rattle.content_eval.specs.Contents.{attribute, url_of};

use plain_types::attr::Attr;
use plain_types::content::Url;
use plain_types::duplicate::Duplicate;
use plain_types::memory::Memory;
use plain_types::text::Text;
use std::alloc::Global;

/// The value of the attribute of this name; empty where it is absent.
pub fn attribute<'a>(attrs: &'a [Attr], name: &str) -> &'a str
    ensures value { chars result.now ≡ attribute attrs.now (chars name.now) }
{
    for attr in attrs {
        if is_named(attr, name) {
            return attr.value.as_str();
        }
    }
    ""
}

/// Whether the attribute has this name, compared as written.
fn is_named(attr: &Attr, name: &str) -> bool
    ensures test { result ≡ is_named (chars name.now) attr.now }
{
    attr.name.as_str() == name
}

/// A copy of the url, looked up.
pub fn url_of(alloc: Global, attrs: &[Attr], url: &Url) -> Result<Text, Memory>
    ensures url { IfOk result (λ text. text ≡ url_of attrs.now url.now) }
{
    match url {
        Url::Given(url) => url.duplicate(alloc),
        Url::FromAttr(name) => Text::from_str(alloc, attribute(attrs, name.as_str())),
    }
}
