//! The steps that one call from C, over all its returns, adds to the run of its lock, and its answer, on functions without effect.

ghost use Rattle.std.specs.Prelude.{◌≡◌, ℕ, Bool, true, List, [], ◌∷◌, IfOk, OnErr, Result};
ghost use Rattle.event_log.specs.{declared.event.Steps.Steps, declared.logged.NoRoom.NoRoom, Log.one_step};
ghost use Rattle.word_rule.specs.{Answered.{IsAnswered, IsRefused}, OneHold.HasHeldAtOnce, Polls.is_idle};
ghost use Rattle.guarded_cell.specs.{AnyCallers.state_of_caller, Held.{HasBatched, HasCalled, left_by_call}};
ghost use Rattle.cell_callers.specs.declared.whole.Whole.TheVariants as whole;
ghost use Rattle.cell_callers.specs.declared.whole.TriedCall.TheVariants as tried;
ghost use Rattle.cell_callers.specs.{OneCalls.{LooksInVain, ReleasesLater, looks_of, view_of}, Wholes.{IsBatched, IsCalled, IsTryCalled}};

use event_log::SeqObject;
use guarded_cell::{AnyCaller, AnyCell};

/// An idle caller calls: n returns report a failed look each, and then the call is done and the lock released, at once or by later
/// steps. So the caller has held the lock once, for that call, with a look for each of these returns, and one more if it acquired
/// the lock by a look. It has done nothing else.
pub fn one_call_is_a_hold<O: SeqObject>(
    cell: &AnyCell<O>,
    first: &AnyCaller<O>,
    call: &O::Call,
    last: &AnyCaller<O>,
)
    ensures done { (n : ℕ) (m : _) (said : Result O.Reply NoRoom) (looked : Bool) → is_idle (state_of_caller first.now) ≡ true →
        LooksInVain O.SeqObject cell.now first.now call.now n m → IsCalled O.SeqObject cell.now m call.now (whole.Done said looked) last.now →
        HasCalled (state_of_caller first.now).caller (state_of_caller first.now).run (looks_of n looked) call.now said (state_of_caller last.now).run }
    ensures kept { (n later : ℕ) (m k : _) (said : Result O.Reply NoRoom) (looked : Bool) → is_idle (state_of_caller first.now) ≡ true →
        LooksInVain O.SeqObject cell.now first.now call.now n m → IsCalled O.SeqObject cell.now m call.now (whole.Kept said looked) k → ReleasesLater O.SeqObject cell.now k later last.now →
        HasCalled (state_of_caller first.now).caller (state_of_caller first.now).run (looks_of n looked) call.now said (state_of_caller last.now).run }
{}

/// The same of a batch: the caller has held the lock once, and has left the event of its calls.
pub fn one_batch_is_a_hold<O: SeqObject>(
    cell: &AnyCell<O>,
    first: &AnyCaller<O>,
    last: &AnyCaller<O>,
)
    ensures done { (call : O.Call) (calls : List O.Call) (n : ℕ) (m : _) (said : Result (Steps O O.Params O.Call O.Reply) NoRoom) (looked : Bool) → is_idle (state_of_caller first.now) ≡ true →
        LooksInVain O.SeqObject cell.now first.now call n m → IsBatched O.SeqObject cell.now m calls (whole.Done said looked) last.now →
        HasBatched (state_of_caller first.now).caller (state_of_caller first.now).run (looks_of n looked) said (state_of_caller last.now).run }
    ensures kept { (call : O.Call) (calls : List O.Call) (n later : ℕ) (m k : _) (said : Result (Steps O O.Params O.Call O.Reply) NoRoom) (looked : Bool) → is_idle (state_of_caller first.now) ≡ true →
        LooksInVain O.SeqObject cell.now first.now call n m → IsBatched O.SeqObject cell.now m calls (whole.Kept said looked) k → ReleasesLater O.SeqObject cell.now k later last.now →
        HasBatched (state_of_caller first.now).caller (state_of_caller first.now).run (looks_of n looked) said (state_of_caller last.now).run }
{}

/// The same of a call by a try that acquired the lock, with at most one look.
pub fn one_try_is_a_hold<O: SeqObject>(
    cell: &AnyCell<O>,
    first: &AnyCaller<O>,
    call: &O::Call,
    last: &AnyCaller<O>,
)
    ensures done { (said : Result O.Reply NoRoom) → IsTryCalled O.SeqObject cell.now first.now call.now (tried.Done said) last.now →
        HasHeldAtOnce (state_of_caller first.now).caller (state_of_caller first.now).run (left_by_call (state_of_caller first.now).caller.acting call.now said) (state_of_caller last.now).run }
    ensures kept { (later : ℕ) (k : _) (said : Result O.Reply NoRoom) → IsTryCalled O.SeqObject cell.now first.now call.now (tried.Kept said) k → ReleasesLater O.SeqObject cell.now k later last.now →
        HasHeldAtOnce (state_of_caller first.now).caller (state_of_caller first.now).run (left_by_call (state_of_caller first.now).caller.acting call.now said) (state_of_caller last.now).run }
{}

/// What the caller has seen at the last return: the call was answered at the end of a lawful log that begins with all that it had
/// seen at the first return, or the log was full.
pub fn one_call_is_answered<O: SeqObject>(
    cell: &AnyCell<O>,
    first: &AnyCaller<O>,
    call: &O::Call,
    last: &AnyCaller<O>,
)
    ensures done { (n : ℕ) (m : _) (said : Result O.Reply NoRoom) (looked : Bool) → is_idle (state_of_caller first.now) ≡ true →
        LooksInVain O.SeqObject cell.now first.now call.now n m → IsCalled O.SeqObject cell.now m call.now (whole.Done said looked) last.now →
        IfOk said (λ r. IsAnswered O.SeqObject (view_of first.now) (call.now ∷ []) (one_step call.now r) (view_of last.now)) × OnErr said (IsRefused O.SeqObject (view_of first.now) (view_of last.now)) }
    ensures kept { (n later : ℕ) (m k : _) (said : Result O.Reply NoRoom) (looked : Bool) → is_idle (state_of_caller first.now) ≡ true →
        LooksInVain O.SeqObject cell.now first.now call.now n m → IsCalled O.SeqObject cell.now m call.now (whole.Kept said looked) k → ReleasesLater O.SeqObject cell.now k later last.now →
        IfOk said (λ r. IsAnswered O.SeqObject (view_of first.now) (call.now ∷ []) (one_step call.now r) (view_of last.now)) × OnErr said (IsRefused O.SeqObject (view_of first.now) (view_of last.now)) }
{}

/// The same of a batch.
pub fn one_batch_is_answered<O: SeqObject>(
    cell: &AnyCell<O>,
    first: &AnyCaller<O>,
    last: &AnyCaller<O>,
)
    ensures done { (call : O.Call) (calls : List O.Call) (n : ℕ) (m : _) (said : Result (Steps O O.Params O.Call O.Reply) NoRoom) (looked : Bool) → is_idle (state_of_caller first.now) ≡ true →
        LooksInVain O.SeqObject cell.now first.now call n m → IsBatched O.SeqObject cell.now m calls (whole.Done said looked) last.now →
        IfOk said (λ s. IsAnswered O.SeqObject (view_of first.now) calls s (view_of last.now)) × OnErr said (IsRefused O.SeqObject (view_of first.now) (view_of last.now)) }
    ensures kept { (call : O.Call) (calls : List O.Call) (n later : ℕ) (m k : _) (said : Result (Steps O O.Params O.Call O.Reply) NoRoom) (looked : Bool) → is_idle (state_of_caller first.now) ≡ true →
        LooksInVain O.SeqObject cell.now first.now call n m → IsBatched O.SeqObject cell.now m calls (whole.Kept said looked) k → ReleasesLater O.SeqObject cell.now k later last.now →
        IfOk said (λ s. IsAnswered O.SeqObject (view_of first.now) calls s (view_of last.now)) × OnErr said (IsRefused O.SeqObject (view_of first.now) (view_of last.now)) }
{}

/// The same of a call by a try that acquired the lock.
pub fn one_try_is_answered<O: SeqObject>(
    cell: &AnyCell<O>,
    first: &AnyCaller<O>,
    call: &O::Call,
    last: &AnyCaller<O>,
)
    ensures done { (said : Result O.Reply NoRoom) → IsTryCalled O.SeqObject cell.now first.now call.now (tried.Done said) last.now →
        IfOk said (λ r. IsAnswered O.SeqObject (view_of first.now) (call.now ∷ []) (one_step call.now r) (view_of last.now)) × OnErr said (IsRefused O.SeqObject (view_of first.now) (view_of last.now)) }
    ensures kept { (later : ℕ) (k : _) (said : Result O.Reply NoRoom) → IsTryCalled O.SeqObject cell.now first.now call.now (tried.Kept said) k → ReleasesLater O.SeqObject cell.now k later last.now →
        IfOk said (λ r. IsAnswered O.SeqObject (view_of first.now) (call.now ∷ []) (one_step call.now r) (view_of last.now)) × OnErr said (IsRefused O.SeqObject (view_of first.now) (view_of last.now)) }
{}
