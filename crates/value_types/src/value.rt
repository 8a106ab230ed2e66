//! Computed values.

ghost use Rattle.std.specs.Prelude.{◌≡◌};

use fix_num::Fix;

/// A computed value of a property (CSS Cascade 5, "computed value"). Numbers are millionths, of pixels, of
/// percents and of degrees too.
#[derive(Clone, Copy, Debug, PartialEq, Eq)]
pub enum Value {
    Number(Fix),
    /// A length and a percent together, as `calc` sums them (CSS Values 3, "Mathematical Expressions: calc()").
    Length {
        px: Fix,
        pct: Fix,
    },
    Auto,
    Int(i32),
    /// Channels of sRGB, 0 to 255, and the alpha, 0 to a million (CSS Color 4, "sRGB Colors").
    Color {
        r: u8,
        g: u8,
        b: u8,
        a: Fix,
    },
    Angle(Fix),
    /// The two parts of `translate`, each a length and a percent together.
    Pair {
        x_px: Fix,
        x_pct: Fix,
        y_px: Fix,
        y_pct: Fix,
    },
    /// The keyword `none` of `rotate` and `translate`.
    Absent,
    Visible(Visibility),
    Display(Display),
}

/// A keyword of `visibility` (CSS Display 3, "Invisibility: the visibility property").
#[derive(Clone, Copy, Debug, PartialEq, Eq)]
pub enum Visibility {
    Visible,
    Hidden,
    Collapse,
}

impl Visibility {
    ghost use Rattle.value_types.specs.Keywords.{keyword_of_visibility, visibility_named};

    /// Every keyword.
    pub const ALL: [Visibility; 3] = [
        Visibility::Visible,
        Visibility::Hidden,
        Visibility::Collapse,
    ];

    /// The keyword as text.
    pub fn keyword(self) -> &'static str
        ensures { result.now ≡ keyword_of_visibility self }
    {
        match self {
            Visibility::Visible => "visible",
            Visibility::Hidden => "hidden",
            Visibility::Collapse => "collapse",
        }
    }

    /// The visibility of this keyword, whatever the ASCII case of its letters.
    pub fn by_keyword(word: &[u8]) -> Option<Visibility>
        ensures { result ≡ visibility_named word.now }
    {
        Self::ALL
            .iter()
            .copied()
            .find(|v| word.eq_ignore_ascii_case(v.keyword().as_bytes()))
    }
}

/// A keyword of `display` (CSS Display 3, "Box Layout Modes: the display
/// property"). `Nothing` is `none`.
#[derive(Clone, Copy, Debug, PartialEq, Eq)]
pub enum Display {
    Nothing,
    Block,
    Inline,
    InlineBlock,
    FlowRoot,
    ListItem,
    Flex,
    InlineFlex,
    Grid,
    InlineGrid,
    Table,
    Contents,
}

impl Display {
    ghost use Rattle.value_types.specs.Keywords.{display_named, keyword_of_display};

    /// Every keyword.
    pub const ALL: [Display; 12] = [
        Display::Nothing,
        Display::Block,
        Display::Inline,
        Display::InlineBlock,
        Display::FlowRoot,
        Display::ListItem,
        Display::Flex,
        Display::InlineFlex,
        Display::Grid,
        Display::InlineGrid,
        Display::Table,
        Display::Contents,
    ];

    /// The keyword as text.
    pub fn keyword(self) -> &'static str
        ensures { result.now ≡ keyword_of_display self }
    {
        match self {
            Display::Nothing => "none",
            Display::Block => "block",
            Display::Inline => "inline",
            Display::InlineBlock => "inline-block",
            Display::FlowRoot => "flow-root",
            Display::ListItem => "list-item",
            Display::Flex => "flex",
            Display::InlineFlex => "inline-flex",
            Display::Grid => "grid",
            Display::InlineGrid => "inline-grid",
            Display::Table => "table",
            Display::Contents => "contents",
        }
    }

    /// The display of this keyword, whatever the ASCII case of its letters.
    pub fn by_keyword(word: &[u8]) -> Option<Display>
        ensures { result ≡ display_named word.now }
    {
        Self::ALL
            .iter()
            .copied()
            .find(|d| word.eq_ignore_ascii_case(d.keyword().as_bytes()))
    }
}
