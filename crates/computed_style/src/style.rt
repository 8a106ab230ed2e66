//! Computed styles.

ghost use Rattle.std.specs.Prelude.{◌≡◌, IfOk, option_copied, unwrap_or, ◌++◌, ◌↔◌, IsTrue};
ghost use Rattle.std.specs.Bool.{OnTrue};
ghost use Rattle.timing_types.specs.TimingLists.{initial_animations};
ghost use Rattle.value_types.specs.TransitionLists.{initial_transitions};
ghost use Rattle.value_types.specs.Ranges.{IsSize};
ghost use Rattle.value_types.specs.Table.{initial_value};
ghost use Rattle.value_types.specs.Validity.{IsValid};
ghost use Rattle.computed_style.specs.ByProperty.{kept_for};
ghost use Rattle.computed_style.specs.Styles.{AreGiven, AreValid, font_size_of, inherited_of, initial_style, initial_values, pixels_of_length, style_of_values, style_with, value_at, value_of, values_with};

use crate::inherited::{Inherited, InheritedValues};
use crate::same::{time_animations_alike, time_transitions_alike};
use fix_num::Fix;
use interpolation::same;
use smallvec::SmallVec;
use std::alloc::{AllocError, Global};
use std::marker::Model;
use timing_types::{AnimationLists, Same};
use value_types::{PropertyId, Shared, TransitionLists, Value, initial_value};

/// The values of a style, by the numbers of their properties, as they are shared. Contracts see their list.
#[derive(Drop)]
struct BaseValues {
    values: [Value; 24],
}

impl Model for BaseValues {
    ghost use Rattle.std.specs.Prelude.{List};
    ghost use Rattle.value_types.specs.declared.value.Value.{Value as AnyValue};
    ghost use Rattle.computed_style.specs.Styles.{AreValid};

    ghost Value = { List AnyValue };

    ghost view = { λ b. b.values };

    ghost invariant = { λ b. AreValid b.values };
}

impl BaseValues {
    fn value(&self, p: PropertyId) -> Value
        ensures value { result ≡ value_at self.now p }
        ensures valid { IsValid p result }
        ensures all { AreValid self.now }
    {
        self.values[p.number() as usize]
    }
}

/// The timing lists of a style, as they are shared. A list that is left out is initial.
#[derive(Drop)]
struct StyleLists {
    transitions: Option<Shared<TransitionLists>>,
    animations: Option<Shared<AnimationLists>>,
}

impl StyleLists {
    fn copy(&self) -> Result<StyleLists, AllocError>
        ensures { IfOk result (λ lists. lists ≡ self.now) }
    {
        let transitions = copy_shared(&self.transitions)?;
        Ok(StyleLists {
            transitions,
            animations: copy_shared(&self.animations)?,
        })
    }
}

/// A value that is given to a property. Contracts see it as the pair of both.
#[derive(Clone, Copy)]
struct Given {
    property: PropertyId,
    value: Value,
}

impl Model for Given {
    ghost use Rattle.value_types.specs.declared.property.PropertyId.{PropertyId};
    ghost use Rattle.value_types.specs.declared.value.Value.{Value as AnyValue};

    ghost Value = { PropertyId × AnyValue };

    ghost view = { λ g. (g.property, g.value) };

    ghost inverse = { λ g. record { property = g.0; value = g.1 } };
}

/// Fills unused places of short lists.
impl Default for Given {
    fn default() -> Given {
        Given {
            property: PropertyId::BackgroundColor,
            value: Value::Auto,
        }
    }
}

/// A computed style: a valid value of each property, and the lists that time transitions and animations (CSS
/// Cascade 5, "computed value"). Styles share what they are based on, and one that has at most two values that aren't initial
/// takes no memory.
#[derive(Drop)]
pub struct Style {
    /// None of the initial values.
    base: Option<Shared<BaseValues>>,
    lists: StyleLists,
    /// Values on top of those.
    given: SmallVec<Given, 2>,
}

impl Model for Style {
    ghost use Rattle.std.specs.Prelude.{unwrap_or};
    ghost use Rattle.timing_types.specs.TimingLists.{initial_animations};
    ghost use Rattle.value_types.specs.TransitionLists.{initial_transitions};
    ghost use Rattle.computed_style.specs.Styles.{ComputedStyle, AreGiven, initial_values, style_of_values, values_with};

    ghost Value = { ComputedStyle };

    ghost view = { λ s. style_of_values (values_with (unwrap_or s.base initial_values) s.given.items) (unwrap_or s.lists.transitions initial_transitions) (unwrap_or s.lists.animations initial_animations) };

    ghost invariant = { λ s. AreGiven s.given.items };
}

impl Style {
    /// The style of these values, by the numbers of their properties, and lists, of which none is initial.
    pub fn new(
        alloc: Global,
        values: [Value; 24],
        transitions: Option<Shared<TransitionLists>>,
        animations: Option<Shared<AnimationLists>>,
    ) -> Result<Style, AllocError>
        requires { AreValid values }
        ensures { IfOk result (λ s. s ≡ style_of_values values (unwrap_or transitions initial_transitions) (unwrap_or animations initial_animations)) }
    {
        let lists = StyleLists {
            transitions,
            animations,
        };
        Ok(Style {
            base: Some(Shared::new(alloc, BaseValues { values })?),
            lists,
            given: SmallVec::new(alloc),
        })
    }

    /// The initial values and lists. Takes no memory.
    pub fn initial(alloc: Global) -> Style
        ensures { result ≡ initial_style }
    {
        Style {
            base: None,
            lists: StyleLists {
                transitions: None,
                animations: None,
            },
            given: SmallVec::new(alloc),
        }
    }

    /// The initial values with these in place of some, and these lists; the first of a property counts. Takes no memory for up
    /// to two values.
    pub fn with_few(
        alloc: Global,
        given: &[(PropertyId, Value)],
        transitions: Option<Shared<TransitionLists>>,
        animations: Option<Shared<AnimationLists>>,
    ) -> Result<Style, AllocError>
        requires { AreGiven given.now }
        ensures { IfOk result (λ s. s ≡ style_of_values (values_with initial_values given.now) (unwrap_or transitions initial_transitions) (unwrap_or animations initial_animations)) }
    {
        let lists = StyleLists {
            transitions,
            animations,
        };
        Ok(Style {
            base: None,
            lists,
            given: joined(alloc, given, &[])?,
        })
    }

    /// The style `base` with these values in place of its own, as transitions and animations give them; the
    /// first of a property counts. Takes no memory for up to two of them, counting those that `base` has.
    pub fn layered(
        alloc: Global,
        base: &Style,
        given: &[(PropertyId, Value)],
    ) -> Result<Style, AllocError>
        requires { AreGiven given.now }
        ensures { IfOk result (λ s. s ≡ style_with base.now given.now) }
    {
        let given = joined(alloc, given, base.given.as_slice())?;
        let lists = base.lists.copy()?;
        Ok(Style {
            base: copy_shared(&base.base)?,
            lists,
            given,
        })
    }

    /// The value of a property.
    pub fn value(&self, p: PropertyId) -> Value
        ensures value { result ≡ value_of self.now p }
        ensures valid { IsValid p result }
        ensures all { AreValid self.now.values }
    {
        match given_for(self.given.as_slice(), p) {
            Some(value) => {
                hold_values(&self.base);
                value
            }
            None => base_value(&self.base, p),
        }
    }

    /// Whether both have the same value of a property. Takes least time where both are based on the initial style.
    pub fn is_same_at(&self, other: &Style, p: PropertyId) -> bool
        ensures { IsTrue result ↔ (value_of self.now p ≡ value_of other.now p) }
    {
        if self.is_initial_at(p) && other.is_initial_at(p) {
            return true;
        }
        same(self.value(p), other.value(p))
    }

    /// Whether the style is seen at once to have the initial value of a property.
    fn is_initial_at(&self, p: PropertyId) -> bool
        ensures { OnTrue result (value_of self.now p ≡ initial_value p) }
    {
        if self.base.is_some() {
            return false;
        }
        match given_for(self.given.as_slice(), p) {
            None => true,
            Some(_) => false,
        }
    }

    /// The lists that time transitions; `None` where each is initial.
    pub fn transitions(&self) -> Option<&TransitionLists>
        ensures { unwrap_or (option_copied result) initial_transitions ≡ self.now.transitions }
    {
        match &self.lists.transitions {
            None => None,
            Some(lists) => Some(lists.get()),
        }
    }

    /// The lists that time animations; `None` where each is initial.
    pub fn animations(&self) -> Option<&AnimationLists>
        ensures { unwrap_or (option_copied result) initial_animations ≡ self.now.animations }
    {
        match &self.lists.animations {
            None => None,
            Some(lists) => Some(lists.get()),
        }
    }

    /// The font size, in millionths of a pixel.
    pub fn font_size(&self) -> Fix
        ensures value { result ≡ font_size_of self.now }
        ensures bounds { IsSize result }
    {
        pixels_of_length(self.value(PropertyId::FontSize))
    }

    /// What the elements below inherit, where the root has this font size, in millionths of a pixel.
    pub fn inherited(&self, root_size: Fix) -> Inherited
        requires { IsSize root_size }
        ensures { result ≡ inherited_of self.now root_size }
    {
        Inherited::new(InheritedValues {
            color: self.value(PropertyId::Color),
            font_size: self.font_size(),
            letter_spacing: self.value(PropertyId::LetterSpacing),
            visibility: self.value(PropertyId::Visibility),
            root_size,
        })
    }

    /// The same style again. Takes memory only where more than two values are given on top of what it is
    /// based on.
    pub fn copy(&self, alloc: Global) -> Result<Style, AllocError>
        ensures { IfOk result (λ s. s ≡ self.now) }
    {
        let given = SmallVec::from_slice(alloc, self.given.as_slice())?;
        let lists = self.lists.copy()?;
        Ok(Style {
            base: copy_shared(&self.base)?,
            lists,
            given,
        })
    }
}

fn base_value(base: &Option<Shared<BaseValues>>, p: PropertyId) -> Value
    ensures value { result ≡ value_at (unwrap_or base.now initial_values) p }
    ensures valid { IsValid p result }
    ensures all { AreValid (unwrap_or base.now initial_values) }
{
    match base {
        None => initial_value(p),
        Some(base) => base.get().value(p),
    }
}

/// What is given is on top of a valid value of each property.
fn hold_values(base: &Option<Shared<BaseValues>>)
    ensures { AreValid (unwrap_or base.now initial_values) }
{
    if let Some(base) = base {
        // What its type says of the values is wanted.
        let _ = base.get().value(PropertyId::Color);
    }
}

fn copy_shared<T>(shared: &Option<Shared<T>>) -> Result<Option<Shared<T>>, AllocError>
    ensures { IfOk result (λ copy. copy ≡ shared.now) }
{
    match shared {
        None => Ok(None),
        Some(shared) => Ok(Some(shared.copy()?)),
    }
}

fn joined(
    alloc: Global,
    first: &[(PropertyId, Value)],
    second: &[Given],
) -> Result<SmallVec<Given, 2>, AllocError>
    ensures { IfOk result (λ both. both.items ≡ first.now ++ second.now) }
{
    let mut both = SmallVec::new(alloc);
    for item in first {
        both.push(Given {
            property: item.0,
            value: item.1,
        })?;
    }
    both.extend_from_slice(second)?;
    Ok(both)
}

fn given_for(given: &[Given], p: PropertyId) -> Option<Value>
    ensures { result ≡ kept_for p given.now }
{
    given
        .iter()
        .find(|item| item.property.number() == p.number())
        .map(|item| item.value)
}

impl Same for Style {
    fn is_same(&self, other: &Style) -> bool {
        have_same_values(self, other)
            && time_transitions_alike(self.transitions(), other.transitions())
            && time_animations_alike(self.animations(), other.animations())
    }
}

fn have_same_values(a: &Style, b: &Style) -> bool
    ensures { IsTrue result ↔ (a.now.values ≡ b.now.values) }
{
    for p in &PropertyId::ALL {
        if !have_same_value(a, b, *p) {
            return false;
        }
    }
    true
}

fn have_same_value(a: &Style, b: &Style, p: PropertyId) -> bool
    ensures same { IsTrue result ↔ (value_of a.now p ≡ value_of b.now p) }
    ensures all { AreValid a.now.values × AreValid b.now.values }
{
    same(a.value(p), b.value(p))
}

/// The pixels of a length.
fn pixels_of_length(value: Value) -> Fix
    ensures { result ≡ pixels_of_length value }
{
    match value {
        Value::Length { px, .. } => px,
        _ => Fix(0),
    }
}
