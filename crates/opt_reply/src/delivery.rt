ghost use Rattle.std.specs.Prelude.{◌≡◌, ◌≤◌, option_map, OnOk, OnErr, IsErrOf};
ghost use Rattle.opt_base.specs.Outside.{appended, AppendsSome, HasCause};
ghost use Rattle.opt_reply.specs.Delivery.{standing, faults, put_in_order, PutsSome, GivesAll, GivesSome, SomeRose, NoneFell, Delivers};
ghost use Rattle.opt_reply.specs.Fault.{fault_of_put, fault_of_sink};

use crate::reply::{Put, Reply};
use crate::{MEMORY, OUTSIDE};
use opt_base::{PutFault, Shelf, Sink, SinkFault};

/// Makes the reply's puts in order, then writes its bytes to `out` and then those to `err`, where there are any.
///
/// It stops at the first call that fails, with status 4 where the outside failed and 5 where memory ran out, and else
/// answers the reply's status.
pub fn deliver<S: Shelf, O: Sink, E: Sink>(
    reply: &Reply,
    shelf: &mut S,
    out: &mut O,
    err: &mut E,
) -> u8
    requires { reply.now.status ≤ 3 }
    ensures { Delivers reply.now result
        (standing (S.files shelf.old) (O.stream out.old) (E.stream err.old))
        (standing (S.files shelf.new) (O.stream out.new) (E.stream err.new))
        (faults (S.count shelf.old) (O.count out.old) (E.count err.old))
        (faults (S.count shelf.new) (O.count out.new) (E.count err.new)) }
{
    match attempt(reply, shelf, out, err) {
        Ok(()) => reply.status(),
        Err(DeliveryFault::Outside) => OUTSIDE,
        Err(DeliveryFault::OutOfMemory) => MEMORY,
    }
}

/// Why a delivery stopped.
#[derive(Clone, Copy, Debug, PartialEq, Eq)]
pub enum DeliveryFault {
    /// The outside failed.
    Outside,
    OutOfMemory,
}

impl From<PutFault> for DeliveryFault {
    ghost from_gives = { λ fault made. made ≡ fault_of_put fault };

    fn from(fault: PutFault) -> DeliveryFault {
        match fault {
            PutFault::Failed => DeliveryFault::Outside,
            PutFault::OutOfMemory => DeliveryFault::OutOfMemory,
        }
    }
}

impl From<SinkFault> for DeliveryFault {
    ghost from_gives = { λ fault made. made ≡ fault_of_sink fault };

    fn from(fault: SinkFault) -> DeliveryFault {
        match fault {
            SinkFault::Failed => DeliveryFault::Outside,
            SinkFault::OutOfMemory => DeliveryFault::OutOfMemory,
        }
    }
}

/// Makes the puts, then writes to `out`, then to `err`, up to the first fault.
fn attempt<S: Shelf, O: Sink, E: Sink>(
    reply: &Reply,
    shelf: &mut S,
    out: &mut O,
    err: &mut E,
) -> Result<(), DeliveryFault>
    ensures ok { OnOk result (GivesAll reply.now
        (standing (S.files shelf.old) (O.stream out.old) (E.stream err.old))
        (standing (S.files shelf.new) (O.stream out.new) (E.stream err.new))) }
    ensures err { OnErr result (GivesSome reply.now
        (standing (S.files shelf.old) (O.stream out.old) (E.stream err.old))
        (standing (S.files shelf.new) (O.stream out.new) (E.stream err.new))) }
    ensures cause { IsErrOf result DeliveryFault.Outside → SomeRose
        (faults (S.count shelf.old) (O.count out.old) (E.count err.old))
        (faults (S.count shelf.new) (O.count out.new) (E.count err.new)) }
    ensures later { NoneFell (faults (S.count shelf.old) (O.count out.old) (E.count err.old))
        (faults (S.count shelf.new) (O.count out.new) (E.count err.new)) }
{
    put_all(reply.puts(), shelf)?;
    write(reply.printed(), out)?;
    write(reply.refused(), err)?;
    Ok(())
}

/// Makes the puts in order, up to the first that fails.
fn put_all<S: Shelf>(puts: &[Put], shelf: &mut S) -> Result<(), PutFault>
    ensures ok { OnOk result (S.files shelf.new ≡ option_map (put_in_order puts.now) (S.files shelf.old)) }
    ensures err { OnErr result (PutsSome puts.now (S.files shelf.old) (S.files shelf.new)) }
    ensures cause { HasCause PutFault.Failed (S.count shelf.old) (S.count shelf.new) result }
{
    for put in puts {
        shelf.put(put.path(), put.bytes())?;
    }
    Ok(())
}

/// Writes the bytes, where there are any.
fn write<O: Sink>(bytes: &[u8], to: &mut O) -> Result<(), SinkFault>
    ensures ok { OnOk result (O.stream to.new ≡ option_map (appended bytes.now) (O.stream to.old)) }
    ensures err { OnErr result (AppendsSome bytes.now (O.stream to.old) (O.stream to.new)) }
    ensures cause { HasCause SinkFault.Failed (O.count to.old) (O.count to.new) result }
{
    if bytes.is_empty() {
        return Ok(());
    }
    to.put(bytes)
}
