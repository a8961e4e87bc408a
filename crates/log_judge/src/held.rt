//! Which connection each transfer holds, after one more entry.

ghost use Rattle.std.specs.Prelude.{◌≡◌, ℕ, ◌+◌, ◌<◌, nat_eq};
ghost use Rattle.std.specs.Prelude.{OnOk, OnErr, None, Some, IsSome, IfSome};
ghost use Rattle.std.specs.Prelude.{◌==◌, if◌then◌else◌};
ghost use Rattle.std.specs.HashMap.{get, hash_map_len, spare};
ghost use Rattle.log_judge.specs.Held.{IsSameTable, HoldsOneMore, HoldsOneLess};
ghost use Rattle.log_judge.specs.Tables.{LetsGo};

use conn_log::Want;
use std::alloc::AllocError;
use std::collections::HashMap;

/// Makes room for one more.
pub(crate) fn make_room(held: &mut HashMap<u64, u32>) -> Result<(), AllocError>
    ensures same { IsSameTable (get nat_eq held.old) (get nat_eq held.new) }
    ensures len { hash_map_len held.new ≡ hash_map_len held.old }
    ensures ok { OnOk result (0 < spare held.new) }
{
    held.reserve(1)
}

/// A transfer that holds nothing holds a connection, in room made before.
pub(crate) fn hold(held: &mut HashMap<u64, u32>, transfer: u64, connection: u32)
    requires room { 0 < spare held.old }
    requires free { get nat_eq held.old transfer ≡ None }
    ensures held { HoldsOneMore (get nat_eq held.old) (get nat_eq held.new) transfer connection }
    ensures len { hash_map_len held.new ≡ hash_map_len held.old + 1 }
{
    let earlier: Result<_, _> = held.insert(transfer, connection);
    let _ = earlier.unwrap();
}

// A transfer that holds a connection holds it no more.
fn let_go(held: &mut HashMap<u64, u32>, transfer: u64)
    requires { IsSome (get nat_eq held.old transfer) }
    ensures held { HoldsOneLess (get nat_eq held.old) (get nat_eq held.new) transfer }
    ensures len { hash_map_len held.new + 1 ≡ hash_map_len held.old }
{
    let _ = held.remove(&transfer);
}

/// What the holder of a connection held, if there is one, it holds no more.
pub(crate) fn let_go_of(held: &mut HashMap<u64, u32>, holder: Option<Want>)
    requires { IfSome holder (λ want. IsSome (get nat_eq held.old want.transfer)) }
    ensures { LetsGo holder (get nat_eq held.old) (get nat_eq held.new)
        (hash_map_len held.old) (hash_map_len held.new) }
{
    if let Some(want) = holder {
        let_go(held, want.transfer);
    }
}
