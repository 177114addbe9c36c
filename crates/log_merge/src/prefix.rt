//! One entry after another, as long as one can come.

ghost use Rattle.std.specs.Prelude.{◌≡◌, ◌<◌, ◌++◌, ◌∷◌, [], ℕ, List, length, slice_index, replicate, IfOk};
ghost use Rattle.log_merge.specs.{Prefixes.{IsMatched, IsPrefix, CanCome}, Least.TakesTheLeast, Nexts.{IsReady, IsWhole, left_in, IsStuck}, WhoCanCome.SaysWhoCanCome};

use crate::number_flags::Flags;
use crate::ready_cpus::{flags_of, look, look_behind};
use crate::run_shape::RunShape;
use event_log::{OutOfMemory, SeqObject};
use sound_run::Place;
use std::alloc::Global;

/// Places in order, how many of them are each CPU's, and how many events each object has among them.
#[derive(Drop)]
pub(crate) struct Prefix {
    pub(crate) places: Vec<Place>,
    pub(crate) at: Vec<usize>,
    pub(crate) placed: Vec<usize>,
}

/// So many zeros.
fn zeros(alloc: Global, count: usize) -> Result<Vec<usize>, OutOfMemory>
    ensures { IfOk result (λ v. v.items ≡ replicate count 0) }
{
    Ok(vec![in alloc; 0; count]?)
}

/// Places the CPU's next entry, which can come, and looks at all that can come or not since.
fn place_next<O: SeqObject, S: RunShape<O>>(
    shape: &S,
    at: &mut [usize],
    placed: &mut [usize],
    flags: &mut Flags,
    cpu: usize,
) -> Place
    requires ready { IsReady (S.run shape.now) at.old placed.old }
    requires front { (order : List Place) × IsPrefix (S.run shape.now) order at.old placed.old }
    requires flags { SaysWhoCanCome (S.run shape.now) at.old placed.old flags.old }
    requires cpu { cpu < length at.old }
    requires comes { CanCome (S.run shape.now) (slice_index at.old) (slice_index placed.old) cpu }
    requires matched { IsMatched (S.run shape.now) }
    requires whole { IsWhole (S.run shape.now) }
    ensures place { result ≡ record { cpu = cpu; entry = slice_index at.old cpu } }
    ensures cpus { length at.new ≡ length at.old }
    ensures logs { length placed.new ≡ length placed.old }
    ensures front { (order : List Place) → IsPrefix (S.run shape.now) order at.old placed.old → IsPrefix (S.run shape.now) (order ++ result ∷ []) at.new placed.new }
    ensures flags { SaysWhoCanCome (S.run shape.now) at.new placed.new flags.new }
    ensures less { left_in (S.run shape.now).transcripts at.new < left_in (S.run shape.now).transcripts at.old }
{
    let n = at[cpu];
    let Some(entry) = shape.entry(cpu, n) else {
        unreachable!()
    };
    at[cpu] = n + 1;
    match entry.is_done {
        true => {
            let object = entry.object as usize;
            let k = placed[object];
            placed[object] = k + 1;
            look(shape, at, placed, flags, cpu);
            look_behind(shape, at, placed, flags, object);
        }
        false => look(shape, at, placed, flags, cpu),
    }
    Place { cpu, entry: n }
}

/// The least CPU's next entry each time, as long as one can come.
pub(crate) fn merge_prefix<O: SeqObject, S: RunShape<O>>(
    alloc: Global,
    shape: &S,
) -> Result<Prefix, OutOfMemory>
    requires whole { IsWhole (S.run shape.now) }
    requires matched { IsMatched (S.run shape.now) }
    ensures stuck { IfOk result (λ f. IsStuck (S.run shape.now) f.places.items f.at.items f.placed.items) }
    ensures least { IfOk result (λ f. TakesTheLeast (S.run shape.now) f.places.items) }
{
    let mut at = zeros(alloc, shape.cpus())?;
    let mut placed = zeros(alloc, shape.objects())?;
    let mut flags = flags_of(alloc, shape, at.as_slice(), placed.as_slice())?;
    let mut places = Vec::new(alloc);
    while let Some(cpu) = flags.least() {
        let place = place_next(
            shape,
            at.as_mut_slice(),
            placed.as_mut_slice(),
            &mut flags,
            cpu,
        );
        places.push(place)?;
    }
    Ok(Prefix { places, at, placed })
}
