//! Laws of sources. The functions do nothing: each contract is a law, proved of every document and every sheet.

ghost use Rattle.mini_cascade.specs.Properties.{display, content, counter_reset, counter_increment, counter_set, list_style_type, quotes};
ghost use Rattle.style_sources.specs.Laws.{PlacedAreThoseThatApply, HasTheWinningValue, WinnerIsAboveAll};
ghost use Rattle.style_sources.specs.declared.property.Property.{Property};
ghost use Rattle.style_sources.specs.declared.property.Property.TheVariants as properties;

/// The declarations that are weighed are those by which the cascade styles the element, and its style has the value of
/// the one that wins, property by property.
pub fn style_has_the_winning_values()
    ensures declarations { PlacedAreThoseThatApply }
    ensures display { HasTheWinningValue properties.Display display }
    ensures content { HasTheWinningValue properties.Content content }
    ensures counter_reset { HasTheWinningValue properties.CounterReset counter_reset }
    ensures counter_increment { HasTheWinningValue properties.CounterIncrement counter_increment }
    ensures counter_set { HasTheWinningValue properties.CounterSet counter_set }
    ensures list_style_type { HasTheWinningValue properties.ListStyleType list_style_type }
    ensures quotes { HasTheWinningValue properties.Quotes quotes }
{}

/// None of the declarations of a property that apply stands above the one that wins.
pub fn winner_is_above_all()
    ensures above { (property : Property) → WinnerIsAboveAll property }
{}
