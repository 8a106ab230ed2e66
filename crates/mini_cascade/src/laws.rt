//! What holds of computed styles by their definition alone.

ghost use Rattle.std.specs.Prelude.{◌≡◌, ◌≢◌, [], Bool, IsTrue, None, Some, if◌then◌else◌};
ghost use Rattle.fix_num.specs.declared.units.Fix.{Fix};
ghost use Rattle.timing_types.specs.TimingLists.{IsAnimationValues};
ghost use Rattle.value_types.specs.Table.{initial_value, is_inherited};
ghost use Rattle.value_types.specs.TransitionLists.{IsTransitionValues};
ghost use Rattle.value_types.specs.declared.declared.Declared.{Declared};
ghost use Rattle.value_types.specs.declared.property.PropertyId.{PropertyId};
ghost use Rattle.computed_style.specs.ByProperty.{kept_for};
ghost use Rattle.computed_style.specs.ComputedStyles.{AnimatedValues, StyleSources, computed_font_size, computed_style, computed_value, inherited_value};
ghost use Rattle.computed_style.specs.Styles.{AreValid, ComputedStyle, inherited_of, style_with, value_of};
ghost use Rattle.mini_cascade.specs.Sources.{AreSources, GiveAlike, with_animated, with_declared, with_transitioned};

/// A computed style has a value of each property, and its lists keep their bounds.
pub fn computed_styles_are_valid()
    ensures values { (x : StyleSources) → AreSources x → AreValid (computed_style x).values }
    ensures transitions { (x : StyleSources) → AreSources x → IsTransitionValues (computed_style x).transitions }
    ensures animations { (x : StyleSources) → AreSources x → IsAnimationValues (computed_style x).animations }
{}

/// A declaration changes the value of no other property, but that of font-size through the font size.
pub fn declarations_are_apart()
    ensures apart { (x : StyleSources) (p q : PropertyId) (important : Bool) (v : Declared) → p ≢ PropertyId.FontSize → p ≢ q
        → computed_value (with_declared x p important v) q ≡ computed_value x q }
    ensures through_size { (x : StyleSources) (q : PropertyId) (important : Bool) (v : Declared) → PropertyId.FontSize ≢ q
        → computed_font_size (with_declared x PropertyId.FontSize important v) ≡ computed_font_size x
        → computed_value (with_declared x PropertyId.FontSize important v) q ≡ computed_value x q }
{}

/// What an element inherits of a valid style by the table of properties (CSS Cascade 5, section 7.2 "Inheritance"):
/// the value of an inherited property, and the initial value of another. So its style depends on its parent's through
/// the inherited properties alone.
pub fn inherits_by_the_table()
    ensures value { (s : ComputedStyle) (root_size : Fix) (p : PropertyId) → AreValid s.values
        → inherited_value (Some (inherited_of s root_size)) p ≡ (if is_inherited p then value_of s p else initial_value p) }
    ensures alone { (a b : ComputedStyle) (root_size : Fix) → ((p : PropertyId) → IsTrue (is_inherited p) → value_of a p ≡ value_of b p)
        → inherited_of a root_size ≡ inherited_of b root_size }
{}

/// Where transitions give no font size, a style is that without transitions, with their values laid over it.
pub fn transitions_take_precedence()
    ensures { (x : StyleSources) → kept_for PropertyId.FontSize x.transitioned ≡ None
        → computed_style x ≡ style_with (computed_style (with_transitioned x [])) x.transitioned }
{}

/// Of animations what they give the properties counts, and nothing else: two that give the same give the same style.
pub fn animations_count_by_their_values()
    ensures { (x : StyleSources) (animated : AnimatedValues) → GiveAlike x.animated animated → computed_style x ≡ computed_style (with_animated x animated) }
{}
