//! The names that a declaration may have.
ghost use Rattle.std.specs.Prelude.{◌≡◌};
ghost use Rattle.shorthand_text.specs.KnownNames.{name_of_list, name_of_shorthand, text_of_name};

use value_types::{ListName, PropertyId, Shorthand};

/// What a declaration may name: a property, a timing list, a shorthand of properties, or one of the two
/// shorthands of timing lists.
#[derive(Clone, Copy, Debug, PartialEq, Eq)]
pub enum KnownName {
    Property(PropertyId),
    List(ListName),
    Short(Shorthand),
    Transition,
    Animation,
}

/// The lists of `transition`.
pub(crate) const TRANSITION_LISTS: [ListName; 4] = [
    ListName::TransitionProperty,
    ListName::TransitionDuration,
    ListName::TransitionDelay,
    ListName::TransitionEasing,
];

/// The lists of `animation`.
pub(crate) const ANIMATION_LISTS: [ListName; 8] = [
    ListName::AnimationName,
    ListName::AnimationDuration,
    ListName::AnimationDelay,
    ListName::AnimationEasing,
    ListName::AnimationCount,
    ListName::AnimationDirection,
    ListName::AnimationFill,
    ListName::AnimationPlayState,
];

/// The shorthands.
pub const ALL_SHORTHANDS: [KnownName; 7] = [
    KnownName::Short(Shorthand::All),
    KnownName::Short(Shorthand::Background),
    KnownName::Short(Shorthand::Inset),
    KnownName::Short(Shorthand::Margin),
    KnownName::Short(Shorthand::Padding),
    KnownName::Transition,
    KnownName::Animation,
];

impl KnownName {
    /// The name in lower case.
    pub fn text(&self) -> &'static str
        ensures { result.now ≡ text_of_name self.now }
    {
        match *self {
            KnownName::Property(p) => p.name(),
            KnownName::List(name) => list_name(name),
            KnownName::Short(shorthand) => shorthand_name(shorthand),
            KnownName::Transition => "transition",
            KnownName::Animation => "animation",
        }
    }
}

/// The name of a timing list.
pub fn list_name(name: ListName) -> &'static str
    ensures { result.now ≡ name_of_list name }
{
    match name {
        ListName::TransitionProperty => "transition-property",
        ListName::TransitionDuration => "transition-duration",
        ListName::TransitionDelay => "transition-delay",
        ListName::TransitionEasing => "transition-timing-function",
        ListName::AnimationName => "animation-name",
        ListName::AnimationDuration => "animation-duration",
        ListName::AnimationDelay => "animation-delay",
        ListName::AnimationEasing => "animation-timing-function",
        ListName::AnimationCount => "animation-iteration-count",
        ListName::AnimationDirection => "animation-direction",
        ListName::AnimationFill => "animation-fill-mode",
        ListName::AnimationPlayState => "animation-play-state",
    }
}

/// The name of a shorthand of properties.
pub fn shorthand_name(shorthand: Shorthand) -> &'static str
    ensures { result.now ≡ name_of_shorthand shorthand }
{
    match shorthand {
        Shorthand::All => "all",
        Shorthand::Background => "background",
        Shorthand::Inset => "inset",
        Shorthand::Margin => "margin",
        Shorthand::Padding => "padding",
    }
}
