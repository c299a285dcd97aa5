//! What may be made of a value where it stands.
ghost use Rattle.std.specs.Prelude.{◌≡◌, Option};

/// A change of the value at a key, which it may put in or take out.
pub trait Change<V> {
    ghost after: { Self → Option V → Option V };

    /// Makes it of what stands at the key, where it stands, and gives what stood there.
    fn make(&self, place: &mut Option<V>) -> Option<V>
        ensures before { result ≡ place.old }
        ensures after { place.new ≡ after self.now place.old };
}
