//! Acts of a receiver's lane that are said of a run.
ghost use Rattle.std.specs.Prelude.{◌≡◌};
ghost use Rattle.wdt_recv_lanes.specs.Acts.{IsActSaid};

use std::marker::{Model, PhantomData};
use wdt_receiver_fsm::RecvAct;
use wdt_tree::Run;

/// An act of a receiver's lane. Its type says that its frame is in the grammar's ranges, and of the run
/// where that is told. Contracts see it as the act.
#[derive(Drop)]
pub struct SaidRecv<N: Run> {
    act: RecvAct,
    of: PhantomData<N>,
}

impl<N: Run> Model for SaidRecv<N> {
    ghost use Rattle.wdt_receiver_fsm.specs.declared.acts.RecvAct.{RecvAct};
    ghost use Rattle.wdt_recv_lanes.specs.Acts.{IsActSaid};

    ghost Value = { RecvAct };

    ghost view = { λ s. s.act };

    ghost invariant = { λ s. IsActSaid N.told s.act };
}

impl<N: Run> SaidRecv<N> {
    /// An act that is said of the run.
    pub fn of(act: RecvAct) -> SaidRecv<N>
        requires { IsActSaid N.told act }
        ensures { result ≡ act }
    {
        SaidRecv {
            act,
            of: PhantomData,
        }
    }

    /// The act.
    pub fn act(&self) -> &RecvAct
        ensures value { result.now ≡ self.now }
        ensures said { IsActSaid N.told self.now }
    {
        &self.act
    }

    /// The act, taken out.
    pub fn into_act(self) -> RecvAct
        ensures value { result ≡ self }
        ensures said { IsActSaid N.told result }
    {
        self.act
    }
}
