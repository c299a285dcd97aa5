//! Laws of the words on finite maps, for maps by place.
ghost use Rattle.std.specs.Prelude.{◌≡◌, ◌+◌, Bool, List, Option, option_and_then};
ghost use Rattle.std.specs.FinMap as map;
ghost use Rattle.smq_kit.specs.Maps.{SameOutside, chosen, patched, set_at, number_of, share};
ghost use Rattle.smq_kit.specs.Orders.{place_cmp};

use crate::Place;

/// What is chosen of a map by place is chosen at each place for itself; a map that is set to another's values wherever
/// they may differ is the other; and where one place is set, the number of values that pass a test changes by what
/// stood there and what stands there now.
pub fn maps_by_place_are_one_by_one<X, Y>()
    ensures chosen { (f : Place → X → Option Y) (m : map.FinMap place_cmp X) (q : Place)
        → map.get (chosen f m) q ≡ option_and_then (f q) (map.get m q) }
    ensures patched { (keys : List Place) (m n : map.FinMap place_cmp X)
        → SameOutside keys m n → patched m (map.get n) keys ≡ n }
    ensures counted { (test : X → Bool) (m : map.FinMap place_cmp X) (q : Place) (v : Option X)
        → number_of test (set_at m q v) + share test (map.get m q)
        ≡ number_of test m + share test v }
{}
