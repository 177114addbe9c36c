//! C's pointer to a value that Rattle owns.

ghost use Rattle.std.specs.{Prelude.◌≡◌, Borrow.MutBor};
ghost use Rattle.core.specs.Mem.{manually_drop_value};
ghost use Rattle.c_handle.specs.Lent.{TakesLentAt, ReturnsLentAt};

use crate::lent::replace_with_lent;
use crate::parts::Parts;
use core::mem::replace_with;
use std::alloc::Global;
use std::mem::ManuallyDrop;

/// Owns the content that lies at its pointer. C sees no generic type, and none with an atomic word, so each content has a handle
/// of its own.
pub trait Handle {
    type Content;

    ghost content: { Self → Self.Content };

    fn of_parts(parts: Parts<ManuallyDrop<Self::Content>, Global>) -> Self
        ensures { Self.content result ≡ manually_drop_value parts.value };

    fn into_parts(self) -> Parts<ManuallyDrop<Self::Content>, Global>
        ensures { manually_drop_value result.value ≡ Self.content self };
}

/// The handle of a box.
pub fn handle_of<H: Handle>(b: Box<ManuallyDrop<H::Content>, Global>) -> H
    ensures { H.content result ≡ manually_drop_value b.value }
{
    H::of_parts(Parts::of(b))
}

/// The box of a handle.
pub fn box_of<H: Handle>(handle: H) -> Box<ManuallyDrop<H::Content>, Global>
    ensures { manually_drop_value result.value ≡ H.content handle }
{
    handle.into_parts().into_box()
}

fn in_slot<T, X, R, F: FnOnce(T, X) -> (T, R)>(
    slot: ManuallyDrop<T>,
    x: X,
    f: F,
) -> (ManuallyDrop<T>, R)
    requires { F.pre f (manually_drop_value slot) x }
    ensures { F.post f (manually_drop_value slot) x (manually_drop_value result.0, result.1) }
{
    let (content, reported) = f(ManuallyDrop::into_inner(slot), x);
    (unsafe { ManuallyDrop::new_unchecked(content) }, reported)
}

fn in_handle<H: Handle, X, R, F: FnOnce(H::Content, X) -> (H::Content, R)>(
    handle: H,
    x: X,
    f: F,
) -> (H, R)
    requires { F.pre f (H.content handle) x }
    ensures { F.post f (H.content handle) x (H.content result.0, result.1) }
{
    let mut block = box_of(handle);
    let reported = replace_with(&mut *block, (x, f), |slot, (x, f)| in_slot(slot, x, f));
    (handle_of(block), reported)
}

/// Replaces the content of the handle by the content that f returns.
pub fn with_content<H: Handle, X, R, F: FnOnce(H::Content, X) -> (H::Content, R)>(
    handle: &mut H,
    x: X,
    f: F,
) -> R
    requires { F.pre f (H.content handle.old) x }
    ensures { F.post f (H.content handle.old) x (H.content handle.new, result) }
{
    replace_with(handle, (x, f), |handle, (x, f)| in_handle(handle, x, f))
}

// The same, in its place.
#[inline]
fn at_block<H: Handle, X, R, F: FnOnce(&mut H::Content, X) -> R>(handle: H, x: X, f: F) -> (H, R)
    requires { (p : MutBor H.Content) → p.now ≡ H.content handle → F.pre f p x }
    ensures { (p q : MutBor H.Content) × (p.now ≡ H.content handle) × F.post f p x result.1 q × (q.now ≡ H.content result.0) }
{
    let mut block = box_of(handle);
    let done = f(&mut **block, x);
    (handle_of(block), done)
}

/// Calls f on the content of the handle, in its place.
#[inline]
pub fn at_content<H: Handle, X, R, F: FnOnce(&mut H::Content, X) -> R>(
    handle: &mut H,
    x: X,
    f: F,
) -> R
    requires { (p : MutBor H.Content) → p.now ≡ H.content handle.old → F.pre f p x }
    ensures { (p q : MutBor H.Content) × (p.now ≡ H.content handle.old) × F.post f p x result q × (q.now ≡ H.content handle.new) }
{
    replace_with(
        handle,
        (x, f),
        |handle: H, asked: (X, F)| -> (H, R)
            requires { (p : MutBor H.Content) → p.now ≡ H.content handle → F.pre asked.1 p asked.0 }
            ensures { (p q : MutBor H.Content) × (p.now ≡ H.content handle) × F.post asked.1 p asked.0 result.1 q × (q.now ≡ H.content result.0) }
        {
            let (x, f) = asked;
            at_block(handle, x, f)
        },
    )
}

#[inline]
fn at_lent_block<H: Handle, X, A, B, R, F: FnOnce(&mut H::Content, X, &mut A, &mut B) -> R>(
    handle: H,
    x: X,
    a: &mut A,
    b: &mut B,
    f: F,
) -> (H, R)
    requires { TakesLentAt F.FnOnce f (H.content handle) x a.old b.old }
    ensures { ReturnsLentAt F.FnOnce f (H.content handle) x a.old b.old result.1 (H.content result.0) a.new b.new }
{
    let mut block = box_of(handle);
    let done = f(&mut **block, x, a, b);
    (handle_of(block), done)
}

/// The same, and lends f two further borrows.
#[inline]
pub fn at_content_with<H: Handle, X, A, B, R, F: FnOnce(&mut H::Content, X, &mut A, &mut B) -> R>(
    handle: &mut H,
    x: X,
    a: &mut A,
    b: &mut B,
    f: F,
) -> R
    requires { TakesLentAt F.FnOnce f (H.content handle.old) x a.old b.old }
    ensures { ReturnsLentAt F.FnOnce f (H.content handle.old) x a.old b.old result (H.content handle.new) a.new b.new }
{
    replace_with_lent(
        handle,
        (x, f),
        a,
        b,
        |handle, (x, f), a, b|
            requires { TakesLentAt F.FnOnce f (H.content handle) x a.old b.old }
            ensures { ReturnsLentAt F.FnOnce f (H.content handle) x a.old b.old result.1 (H.content result.0) a.new b.new }
        { at_lent_block(handle, x, a, b, f) },
    )
}
