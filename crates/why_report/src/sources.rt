//! The lines of sources.

ghost use Rattle.std.specs.Prelude.{◌≡◌, OnOk, OnErr, encode_utf8_all};
ghost use Rattle.std.specs.Str.{chars};
ghost use Rattle.ports.specs.Causes.{HasCause};
ghost use Rattle.ports.specs.Grown.{grown, GrowsByFront};
ghost use Rattle.style_sources.specs.Sources.{value_source_of};
ghost use Rattle.style_sources.specs.declared.place.DeclarationPlace.TheVariants as places;
ghost use Rattle.why_report.specs.Accounts.{importance_text, origin_name, place_text, properties, property_name, source_line, source_lines, source_text};

use itoa::Buffer;
use ports::failed::Failed;
use ports::sink::{Sink, put_all};
use style_sources::declarations::Declarations;
use style_sources::place::{DeclarationPlace, SheetOrigin};
use style_sources::property::Property;
use style_sources::value_source::ValueSource;

/// The properties, in the order of their lines.
static PROPERTIES: [Property; 7] = [
    Property::Display,
    Property::Content,
    Property::CounterReset,
    Property::CounterIncrement,
    Property::CounterSet,
    Property::ListStyleType,
    Property::Quotes,
];

fn properties() -> &'static [Property]
    ensures order { result.now ≡ properties }
{
    &PROPERTIES
}

fn property_name(property: Property) -> &'static str
    ensures name { result.now ≡ property_name property }
{
    match property {
        Property::Display => "display",
        Property::Content => "content",
        Property::CounterReset => "counter-reset",
        Property::CounterIncrement => "counter-increment",
        Property::CounterSet => "counter-set",
        Property::ListStyleType => "list-style-type",
        Property::Quotes => "quotes",
    }
}

fn origin_name(origin: SheetOrigin) -> &'static str
    ensures name { result.now ≡ origin_name origin }
{
    match origin {
        SheetOrigin::UserAgent => "agent",
        SheetOrigin::Author => "author",
    }
}

/// Puts which sheet a rule is in, and how many style rules stand before it there.
fn put_rule<O: Sink>(origin: SheetOrigin, number: usize, out: &mut O) -> Result<(), Failed>
    ensures ok { OnOk result (O.out out.new ≡ grown (O.out out.old) (encode_utf8_all (place_text (places.Rule origin number)))) }
    ensures failed { OnErr result (GrowsByFront (O.out out.old) (O.out out.new) (encode_utf8_all (place_text (places.Rule origin number)))) }
    ensures cause { HasCause (O.faults out.old) (O.faults out.new) result }
{
    let mut buffer = Buffer::new();
    let digits = buffer.format(number);
    put_all(out, origin_name(origin).as_bytes())?;
    put_all(out, b" ")?;
    put_all(out, digits.as_bytes())
}

/// Puts where a declaration stands.
fn put_place<O: Sink>(place: DeclarationPlace, out: &mut O) -> Result<(), Failed>
    ensures ok { OnOk result (O.out out.new ≡ grown (O.out out.old) (encode_utf8_all (place_text place))) }
    ensures failed { OnErr result (GrowsByFront (O.out out.old) (O.out out.new) (encode_utf8_all (place_text place))) }
    ensures cause { HasCause (O.faults out.old) (O.faults out.new) result }
{
    match place {
        DeclarationPlace::Rule(origin, number) => put_rule(origin, number, out),
        DeclarationPlace::Hint => put_all(out, b"hint"),
        DeclarationPlace::StyleAttribute => put_all(out, b"inline"),
    }
}

/// Puts where a value comes from.
fn put_source<O: Sink>(source: ValueSource, out: &mut O) -> Result<(), Failed>
    ensures ok { OnOk result (O.out out.new ≡ grown (O.out out.old) (encode_utf8_all (source_text source))) }
    ensures failed { OnErr result (GrowsByFront (O.out out.old) (O.out out.new) (encode_utf8_all (source_text source))) }
    ensures cause { HasCause (O.faults out.old) (O.faults out.new) result }
{
    match source {
        ValueSource::Declared { place, important } => {
            put_place(place, out)?;
            put_all(out, importance(important))
        }
        ValueSource::Inherited => put_all(out, b"inherited"),
        ValueSource::Initial => put_all(out, b"initial"),
    }
}

fn importance(important: bool) -> &'static [u8]
    ensures text { result.now ≡ importance_text important }
{
    if important { b" important" } else { b"" }
}

/// Puts the line of a property.
fn put_source_line<O: Sink>(
    property: Property,
    source: ValueSource,
    out: &mut O,
) -> Result<(), Failed>
    ensures ok { OnOk result (O.out out.new ≡ grown (O.out out.old) (encode_utf8_all (source_line property source))) }
    ensures failed { OnErr result (GrowsByFront (O.out out.old) (O.out out.new) (encode_utf8_all (source_line property source))) }
    ensures cause { HasCause (O.faults out.old) (O.faults out.new) result }
{
    put_all(out, property_name(property).as_bytes())?;
    put_all(out, b" ")?;
    put_source(source, out)?;
    put_all(out, b"\n")
}

/// Puts the lines of all properties of an element to which these declarations apply.
pub(crate) fn put_sources<O: Sink>(
    declarations: &Declarations<'_>,
    is_root: bool,
    out: &mut O,
) -> Result<(), Failed>
    ensures ok { OnOk result (O.out out.new ≡ grown (O.out out.old) (encode_utf8_all (source_lines (λ property. value_source_of is_root property declarations.now)))) }
    ensures failed { OnErr result (GrowsByFront (O.out out.old) (O.out out.new) (encode_utf8_all (source_lines (λ property. value_source_of is_root property declarations.now)))) }
    ensures cause { HasCause (O.faults out.old) (O.faults out.new) result }
{
    for property in properties() {
        put_source_line(*property, declarations.source(*property, is_root), out)?;
    }
    Ok(())
}
