//! The dialers and the acceptors of all lanes.
ghost use Rattle.std.specs.Prelude.{◌≡◌, ◌+◌, ◌^◌, ◌≤◌, None, IfOk};
ghost use Rattle.wdt_net.specs.Ends.{new_ends};

use crate::accept::TcpAccept;
use crate::dial::TcpDial;
use crate::met::Met;
use std::alloc::Global;
use std::net::{Net, TcpListener, TcpStream};
use std::sync::Wait;
use std::time::Clock;
use wdt_tree::Run;
use wdt_units::NoMemory;

/// A dialer for each lane from 0 on: that of lane 0 connects to the port, and each further lane's to the
/// next one. `lanes` is 1 to 16.
pub fn tcp_dials<R: Net<Listener = TcpListener, Stream = TcpStream> + Clock + Clone + Drop, N: Run>(
    rt: &R,
    alloc: Global,
    host: &str,
    port: u16,
    lanes: u8,
) -> Result<Vec<TcpDial<R, N>>, NoMemory>
    requires silent { N.told ≡ None }
    requires ports { port + lanes ≤ 2 ^ 16 }
    ensures { IfOk result (λ ends. ends.items ≡ new_ends lanes port) }
{
    let mut dialers = Vec::new(alloc);
    for lane in 0..lanes {
        let host = String::from_str(alloc, host)?;
        let of_lane = port + u16::from(lane);
        dialers.push(TcpDial::to(rt.clone()?, alloc, host, of_lane))?;
    }
    Ok(dialers)
}

/// An acceptor for each lane from 0 on: that of lane 0 listens on the port, and each further lane's on
/// the next one. Once any of them has had a connection, none waits without end. `lanes` is 1 to 16.
pub fn tcp_accepts<
    R: Net<Listener = TcpListener, Stream = TcpStream> + Clock + Wait + Clone + Drop,
    N: Run,
>(rt: &R, alloc: Global, host: &str, port: u16, lanes: u8) -> Result<Vec<TcpAccept<R, N>>, NoMemory>
    requires silent { N.told ≡ None }
    requires ports { port + lanes ≤ 2 ^ 16 }
    ensures { IfOk result (λ ends. ends.items ≡ new_ends lanes port) }
{
    let met = Met::new(alloc)?;
    let mut acceptors = Vec::new(alloc);
    for lane in 0..lanes {
        let host = String::from_str(alloc, host)?;
        let of_lane = port + u16::from(lane);
        acceptors.push(TcpAccept::at(rt.clone()?, alloc, host, of_lane, met.share()?))?;
    }
    Ok(acceptors)
}
