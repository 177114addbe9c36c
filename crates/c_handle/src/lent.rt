//! `replace_with` that lends two further borrows, whose values are known afterwards.

/// Takes the value out for f, lends it a and b, and leaves what f gives back.
pub fn replace_with_lent<T, X, A, B, R, F: FnOnce(T, X, &mut A, &mut B) -> (T, R)>(
    dest: &mut T,
    x: X,
    a: &mut A,
    b: &mut B,
    f: F,
) -> R
    requires { F.pre f dest.old x a b }
    ensures { F.post f dest.old x a.entry b.entry (dest.new, result) a.exit b.exit }
{
    let p = dest as *mut T;
    unsafe {
        let (new, r) = f(p.read(), x, a, b);
        p.write(new);
        r
    }
}
