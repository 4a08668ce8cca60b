// An input that is read part by part.
use swh_base::{Memory, Name, Namer, Shared};
use swh_dedup::Objects;
use swh_object::Object;

/// What an input gives next.
#[derive(Drop)]
pub enum Next<N: Namer, B> {
    /// Objects, with more of the input behind them.
    Part(Vec<Object<N>>),
    /// The last objects, with the snapshot.
    Last(Objects<N>),
    /// The input is bad.
    Bad(B),
}

/// What a turn of a reading gives.
pub trait GoesOn {
    /// That there is more of the input behind it.
    ghost more: { Self → Type 0 };
}

impl<N: Namer, B> GoesOn for Next<N, B> {
    ghost use Rattle.swh_ingest.specs.Parts.{IsMore};

    ghost more = { IsMore };
}

/// A way to read inputs of type `I` part by part, of which each turn gives an `X`.
pub trait ReadsParts<I, X: GoesOn> {
    ghost use Rattle.std.specs.Prelude.{◌≡◌, ℕ, ◌<◌, Result, IfOk};
    ghost use Rattle.swh_base.specs.declared.memory.Memory.{Memory};

    /// That the input may be read on.
    ghost takes: { Self → I → Type 0 };

    /// What reading on may answer, and what it leaves of the input.
    ghost gives: { Self → I → Result X Memory → I → Type 0 };

    /// How many parts may come at most.
    ghost left: { Self → I → ℕ };

    fn next(&self, input: &mut I) -> Result<X, Memory>
        requires { takes self.now input.old }
        ensures gives { gives self.now input.old result input.new }
        ensures on { IfOk result (λ next. X.more next → takes self.now input.new) }
        ensures fewer { IfOk result (λ next. X.more next → left self.now input.new < left self.now input.old) };

    /// Lets what the input keeps of an object of this name and body be this body, which is shared. Contracts see no change.
    fn share(&self, input: &mut I, name: &Name, body: Shared<u8>)
        requires { takes self.now input.old }
        ensures { input.new ≡ input.old };
}

/// What is said of inputs of type `I` that a call reads part by part.
pub trait SaidOfParts<I> {
    ghost use Rattle.std.specs.Prelude.{ℕ};

    /// That an input may be read on.
    ghost ready: { I → Type 0 };

    /// How many parts may come at most.
    ghost left: { I → ℕ };
}

/// The way of a call for each part, and of one that shares what is held. A function that is generic over sources can make
/// one, where no type of its own can be such a way.
#[derive(Drop)]
pub struct ByParts<W, F, G> {
    pub said: W,
    pub call: F,
    pub share: G,
}

impl<
    I,
    X: GoesOn,
    W: SaidOfParts<I>,
    F: Fn(&mut I) -> Result<X, Memory>,
    G: Fn(&mut I, &Name, Shared<u8>),
> ReadsParts<I, X> for ByParts<W, F, G> {
    ghost use Rattle.std.specs.Prelude.{◌≡◌, ◌<◌, IfOk};

    ghost takes = { λ r i. W.ready i
        × ((s : _) → W.ready s.now → F.pre r.call s)
        × ((s : _) (x : _) (t : _) → W.ready s.now → F.post r.call s x t
        → IfOk x (λ next. X.more next → W.ready t.now × (W.left t.now < W.left s.now)))
        × ((s : _) (n : _) (b : _) → W.ready s.now → G.pre r.share s n b)
        × ((s : _) (n : _) (b : _) (x : _) (t : _) → W.ready s.now → G.post r.share s n b x t → t.now ≡ s.now) };

    ghost gives = { λ r i x now. (s : _) × (t : _) × (s.now ≡ i) × F.post r.call s x t × (t.now ≡ now) };

    ghost left = { λ r i. W.left i };

    fn next(&self, input: &mut I) -> Result<X, Memory> {
        (self.call)(input)
    }

    fn share(&self, input: &mut I, name: &Name, body: Shared<u8>) {
        (self.share)(input, name, body)
    }
}
