//! The frames of a keyframes rule, one for each offset and property.
ghost use Rattle.std.specs.Prelude.{◌≡◌, ◌<◌, None, All, IfSome, IsTrue, OnOk, length};
ghost use Rattle.std.specs.List.{prefix_len};
ghost use Rattle.value_types.specs.Keyframes.{IsFrame, IsFrames};
ghost use Rattle.value_types.specs.ListValues.{IsListValueFor};
ghost use Rattle.timing_types.specs.Timing.{IsEasing};
ghost use Rattle.shorthand_text.specs.Longhands.{IsLonghand};
ghost use Rattle.sheet_rules.specs.Frames.{IsOffset, easing_given, easing_of, first_easing, put_block, put_blocks, put_frame, put_longhand, is_taken, stands_before};

use fix_num::Bill;
use sheet_types::Declaration;
use shorthand_text::Longhand;
use std::alloc::AllocError;
use timing_types::Easing;
use value_types::{Frame, ListName, ListValue, PropertyId};

/// Whether the frame stands at a smaller offset, or at the same one with a smaller property number.
fn stands_before(f: &Frame, g: &Frame) -> bool
    ensures { result ≡ stands_before f.now g.now }
{
    f.offset.0 < g.offset.0
        || (g.offset.0 >= f.offset.0 && f.property.number() < g.property.number())
}

fn before_len(frame: &Frame, frames: &[Frame]) -> usize
    ensures { result ≡ prefix_len (λ g. stands_before g frame.now) frames.now }
{
    frames
        .iter()
        .take_while(|g| stands_before(g, frame))
        .count()
}

/// Puts the frame in its place, which is that of the frame of its offset and property where there is one.
fn put_frame(frames: &mut Vec<Frame>, frame: Frame) -> Result<(), AllocError>
    requires frame { IsFrame frame }
    requires frames { IsFrames frames.old.items }
    ensures value { OnOk result (frames.new.items ≡ put_frame frame frames.old.items) }
    ensures frames { OnOk result (IsFrames frames.new.items) }
{
    let at = before_len(&frame, frames);
    if is_taken(&frame, frames, at) {
        frames[at] = frame;
        return Ok(());
    }
    frames.insert(at, frame)?;
    Ok(())
}

/// Whether a frame at the place has the frame's offset and property, where those before it stand before the frame.
fn is_taken(frame: &Frame, frames: &[Frame], at: usize) -> bool
    ensures value { result ≡ is_taken frame.now frames.now at }
    ensures inside { IsTrue result → at < length frames.now }
{
    match frames.get(at) {
        Some(other) => !stands_before(frame, other),
        None => false,
    }
}

/// Puts what the longhand gives the frames at the offset.
fn put_longhand(
    frames: &mut Vec<Frame>,
    offset: Bill,
    easing: Option<Easing>,
    longhand: &Longhand,
) -> Result<(), AllocError>
    requires offset { IsOffset offset }
    requires easing { IfSome easing IsEasing }
    requires longhand { IsLonghand longhand.now }
    requires frames { IsFrames frames.old.items }
    ensures value { OnOk result (frames.new.items ≡ put_longhand offset easing longhand.now frames.old.items) }
    ensures frames { OnOk result (IsFrames frames.new.items) }
{
    match longhand {
        Longhand::Property(PropertyId::Display, _) | Longhand::List(_, _) => Ok(()),
        Longhand::Property(property, declared) => put_frame(
            frames,
            Frame {
                offset,
                property: *property,
                declared: *declared,
                easing,
            },
        ),
    }
}

/// Puts what the declarations of a block give the frames at one offset.
fn put_block(
    frames: &mut Vec<Frame>,
    offset: Bill,
    easing: Option<Easing>,
    declarations: &[Declaration],
) -> Result<(), AllocError>
    requires offset { IsOffset offset }
    requires easing { IfSome easing IsEasing }
    requires frames { IsFrames frames.old.items }
    ensures value { OnOk result (frames.new.items ≡ put_block offset easing declarations.now frames.old.items) }
    ensures frames { OnOk result (IsFrames frames.new.items) }
{
    for declaration in declarations {
        put_longhand(frames, offset, easing, &declaration.get().longhand)?;
    }
    Ok(())
}

/// Puts what the declarations of a block give the frames at each of its offsets.
pub(crate) fn put_blocks(
    frames: &mut Vec<Frame>,
    offsets: &[Bill],
    easing: Option<Easing>,
    declarations: &[Declaration],
) -> Result<(), AllocError>
    requires offsets { All IsOffset offsets.now }
    requires easing { IfSome easing IsEasing }
    requires frames { IsFrames frames.old.items }
    ensures value { OnOk result (frames.new.items ≡ put_blocks offsets.now easing declarations.now frames.old.items) }
    ensures frames { OnOk result (IsFrames frames.new.items) }
{
    for offset in offsets {
        put_block(frames, *offset, easing, declarations)?;
    }
    Ok(())
}

/// The easing that the last of the declarations with one gives.
pub(crate) fn easing_of(declarations: &[Declaration]) -> Option<Easing>
    ensures value { result ≡ easing_of None declarations.now }
    ensures bounds { IfSome result IsEasing }
{
    let mut easing = None;
    for declaration in declarations {
        easing = easing_given(&declaration.get().longhand, easing);
    }
    easing
}

fn easing_given(longhand: &Longhand, other: Option<Easing>) -> Option<Easing>
    requires longhand { IsLonghand longhand.now }
    requires other { IfSome other IsEasing }
    ensures value { result ≡ easing_given longhand.now other }
    ensures bounds { IfSome result IsEasing }
{
    match longhand {
        Longhand::List(ListName::AnimationEasing, value) => first_easing(value, other),
        _ => other,
    }
}

fn first_easing(value: &ListValue, other: Option<Easing>) -> Option<Easing>
    requires value { IsListValueFor ListName.AnimationEasing value.now }
    requires other { IfSome other IsEasing }
    ensures value { result ≡ first_easing value.now other }
    ensures bounds { IfSome result IsEasing }
{
    match value {
        ListValue::Initial => Some(Easing::ease()),
        ListValue::Easings(items) => match items.as_slice() {
            [first, ..] => Some(*first),
            [] => other,
        },
        _ => other,
    }
}
