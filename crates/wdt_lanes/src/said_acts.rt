//! Acts and inputs of a sender's lane that are said of a run.
ghost use Rattle.std.specs.Prelude.{◌≡◌};
ghost use Rattle.wdt_lanes.specs.Acts.{IsActSaid, IsInSaid};

use std::marker::{Model, PhantomData};
use wdt_sender_fsm::{SendAct, SendIn};
use wdt_tree::Run;

/// An act of a sender's lane. Its type says that its frame, or its block's header, is in the grammar's
/// ranges, and of the run where that is told. Contracts see it as the act.
#[derive(Drop)]
pub struct SaidSend<N: Run> {
    act: SendAct,
    of: PhantomData<N>,
}

impl<N: Run> Model for SaidSend<N> {
    ghost use Rattle.wdt_sender_fsm.specs.declared.acts.SendAct.{SendAct};
    ghost use Rattle.wdt_lanes.specs.Acts.{IsActSaid};

    ghost Value = { SendAct };

    ghost view = { λ s. s.act };

    ghost invariant = { λ s. IsActSaid N.told s.act };
}

impl<N: Run> SaidSend<N> {
    /// An act that is said of the run.
    pub fn of(act: SendAct) -> SaidSend<N>
        requires { IsActSaid N.told act }
        ensures { result ≡ act }
    {
        SaidSend {
            act,
            of: PhantomData,
        }
    }

    /// The act.
    pub fn act(&self) -> &SendAct
        ensures value { result.now ≡ self.now }
        ensures said { IsActSaid N.told self.now }
    {
        &self.act
    }

    /// The act, taken out.
    pub fn into_act(self) -> SendAct
        ensures value { result ≡ self }
        ensures said { IsActSaid N.told result }
    {
        self.act
    }
}

/// An input of a sender's lane. Its type says that the frame that was read is in the grammar's ranges,
/// and of the run where that is told. Contracts see it as the input.
#[derive(Drop)]
pub struct SaidIn<N: Run> {
    put: SendIn,
    of: PhantomData<N>,
}

impl<N: Run> Model for SaidIn<N> {
    ghost use Rattle.wdt_sender_fsm.specs.declared.inputs.SendIn.{SendIn};
    ghost use Rattle.wdt_lanes.specs.Acts.{IsInSaid};

    ghost Value = { SendIn };

    ghost view = { λ s. s.put };

    ghost invariant = { λ s. IsInSaid N.told s.put };
}

impl<N: Run> SaidIn<N> {
    /// An input that is said of the run.
    pub fn of(put: SendIn) -> SaidIn<N>
        requires { IsInSaid N.told put }
        ensures { result ≡ put }
    {
        SaidIn {
            put,
            of: PhantomData,
        }
    }

    /// The input.
    pub fn put(&self) -> &SendIn
        ensures value { result.now ≡ self.now }
        ensures said { IsInSaid N.told self.now }
    {
        &self.put
    }

    /// The input, taken out.
    pub fn into_put(self) -> SendIn
        ensures value { result ≡ self }
        ensures said { IsInSaid N.told result }
    {
        self.put
    }
}
