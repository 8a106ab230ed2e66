//! What the cascade sorts by.
ghost use Rattle.std.specs.Prelude.{◌≡◌};
ghost use Rattle.cascade_sort.specs.Lexicographic.{is_at_most};
ghost use Rattle.cascade_sort.specs.Precedences.{keys_of};

/// What decides between declarations of one importance, the greater winning (CSS Cascade 5, section 6.1, "Cascade
/// Sorting Order"). It also tells where the declaration stands.
#[derive(Clone, Copy)]
pub(crate) struct Precedence {
    /// Whether it stands in the style attribute.
    pub attached: bool,
    /// How many ids, classes and types the rule's selector names.
    pub specificity: (u32, u32, u32),
    /// The index of the sheet.
    pub sheet: usize,
    /// The index of the rule among the sheet's style rules.
    pub rule: usize,
    /// The index of the declaration in its block.
    pub declaration: usize,
}

impl Precedence {
    /// Whether the other is as great, or greater.
    pub(crate) fn is_at_most(&self, other: &Precedence) -> bool
        ensures { result ≡ is_at_most (keys_of self.now) (keys_of other.now) }
    {
        if self.attached != other.attached {
            return other.attached;
        }
        let (ids, classes, types) = self.specificity;
        let (other_ids, other_classes, other_types) = other.specificity;
        if ids != other_ids {
            return ids < other_ids;
        }
        if classes != other_classes {
            return classes < other_classes;
        }
        if types != other_types {
            return types < other_types;
        }
        if self.sheet != other.sheet {
            return self.sheet < other.sheet;
        }
        if self.rule != other.rule {
            return self.rule < other.rule;
        }
        self.declaration <= other.declaration
    }
}
