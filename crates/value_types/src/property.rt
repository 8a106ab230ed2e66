//! The properties of the profile, by name and by number.

ghost use Rattle.std.specs.Prelude.{◌≡◌, slice_get};

/// A property. The variants stand in the order of their names by code point, which is that of their numbers.
/// The default fills unused places of short lists.
#[derive(Clone, Copy, Debug, Default, PartialEq, Eq)]
pub enum PropertyId {
    #[default]
    BackgroundColor,
    Bottom,
    Color,
    Display,
    FontSize,
    Height,
    Left,
    LetterSpacing,
    MarginBottom,
    MarginLeft,
    MarginRight,
    MarginTop,
    Opacity,
    PaddingBottom,
    PaddingLeft,
    PaddingRight,
    PaddingTop,
    Right,
    Rotate,
    Top,
    Translate,
    Visibility,
    Width,
    ZIndex,
}

impl PropertyId {
    ghost use Rattle.std.specs.Prelude.{◌≡◌, ◌<◌, slice_get};
    ghost use Rattle.value_types.specs.Properties.{is_named, name_of, number_of, all_properties, property_named};

    /// Every property, in the order of the numbers.
    pub const ALL: [PropertyId; 24] = [
        PropertyId::BackgroundColor,
        PropertyId::Bottom,
        PropertyId::Color,
        PropertyId::Display,
        PropertyId::FontSize,
        PropertyId::Height,
        PropertyId::Left,
        PropertyId::LetterSpacing,
        PropertyId::MarginBottom,
        PropertyId::MarginLeft,
        PropertyId::MarginRight,
        PropertyId::MarginTop,
        PropertyId::Opacity,
        PropertyId::PaddingBottom,
        PropertyId::PaddingLeft,
        PropertyId::PaddingRight,
        PropertyId::PaddingTop,
        PropertyId::Right,
        PropertyId::Rotate,
        PropertyId::Top,
        PropertyId::Translate,
        PropertyId::Visibility,
        PropertyId::Width,
        PropertyId::ZIndex,
    ];

    /// The name, in lower case.
    pub fn name(self) -> &'static str
        ensures { result.now ≡ name_of self }
    {
        match self {
            PropertyId::BackgroundColor => "background-color",
            PropertyId::Bottom => "bottom",
            PropertyId::Color => "color",
            PropertyId::Display => "display",
            PropertyId::FontSize => "font-size",
            PropertyId::Height => "height",
            PropertyId::Left => "left",
            PropertyId::LetterSpacing => "letter-spacing",
            PropertyId::MarginBottom => "margin-bottom",
            PropertyId::MarginLeft => "margin-left",
            PropertyId::MarginRight => "margin-right",
            PropertyId::MarginTop => "margin-top",
            PropertyId::Opacity => "opacity",
            PropertyId::PaddingBottom => "padding-bottom",
            PropertyId::PaddingLeft => "padding-left",
            PropertyId::PaddingRight => "padding-right",
            PropertyId::PaddingTop => "padding-top",
            PropertyId::Right => "right",
            PropertyId::Rotate => "rotate",
            PropertyId::Top => "top",
            PropertyId::Translate => "translate",
            PropertyId::Visibility => "visibility",
            PropertyId::Width => "width",
            PropertyId::ZIndex => "z-index",
        }
    }

    /// The number, 0 to 23: the place of the name in the order by code point.
    pub fn number(self) -> u32
        ensures value { result ≡ number_of self }
        ensures small { result < 24 }
    {
        self as u32
    }

    /// The property of this number; `None` from 24 on.
    pub fn from_number(n: u32) -> Option<PropertyId>
        ensures { result ≡ slice_get all_properties n }
    {
        property_at(&Self::ALL, n as usize)
    }

    /// The property of this name, whatever the ASCII case of its letters; `None` where no property has it.
    pub fn by_name(name: &str) -> Option<PropertyId>
        ensures { result ≡ property_named name.now }
    {
        Self::by_bytes(name.as_bytes())
    }

    /// As `by_name`, from the bytes of a text.
    #[tactic(auto, unfolding(crate::specs::Properties::property_named))]
    pub fn by_bytes(name: &[u8]) -> Option<PropertyId>
        ensures { result ≡ property_named name.now }
    {
        Self::ALL.iter().copied().find(|p| p.is_named(name))
    }

    fn is_named(self, name: &[u8]) -> bool
        ensures { result ≡ is_named name.now self }
    {
        name.eq_ignore_ascii_case(self.name().as_bytes())
    }
}

fn property_at(properties: &[PropertyId], n: usize) -> Option<PropertyId>
    ensures { result ≡ slice_get properties.now n }
{
    properties.get(n).copied()
}
