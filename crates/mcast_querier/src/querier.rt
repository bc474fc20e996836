//! A querier of both IP versions.
ghost use Rattle.std.specs.Prelude.{◌≡◌, ◌<◌, ◌^◌, ◌++◌, Ok, IfOk, OnOk, OnErr, true};
ghost use Rattle.br_model.specs.Wire.Frames.{frame};
ghost use Rattle.mcast_querier.specs.Hearing.{asker as asker_of};
ghost use Rattle.mcast_querier.specs.Querier.{first_querier, heard, queries, query_of, ticked};
ghost use Rattle.mcast_querier.specs.Queries.{is_host_four, is_link_local_six, query_four, query_six};

use crate::NoMemory;
use crate::election::Election;
use crate::hearing::asker_in;
use crate::queries::{query_four, query_six};
use br_model::bytes::Bytes;
use br_model::frame::Head;
use br_model::numbers::Mac;
use lists::Items;
use std::alloc::Global;
use std::marker::Model;

/// Frames that leave, in their order.
pub type Queries = Items<Bytes>;

/// A querier on the host, which asks in both IP versions where nobody with a lower address does.
#[derive(Drop)]
pub struct Querier {
    own: Mac,
    four: Election,
    six: Election,
}

impl Model for Querier {
    ghost use Rattle.std.specs.Prelude.{◌<◌, ◌^◌};
    ghost use Rattle.mcast_querier.specs.Querier.{QuerierState};

    ghost Value = { QuerierState };

    ghost view = { λ q. record { own = q.own; four = q.four; six = q.six } };

    ghost invariant = { λ q. q.four.address < 2 ^ 32 };
}

impl Querier {
    /// A querier of the bridge with the address `own`, at the addresses `a4` and `a6`, which has heard nothing.
    pub fn make(own: Mac, a4: u32, a6: u128) -> Querier
        requires four { is_host_four a4 ≡ true }
        requires six { is_link_local_six a6 ≡ true }
        ensures { result ≡ first_querier own a4 a6 }
    {
        Querier {
            own,
            four: Election::first(u128::from(a4)),
            six: Election::first(a6),
        }
    }

    /// A frame came to the host at this moment, in milliseconds. `head` is the header that `parse` reads from `bytes`. Only a general
    /// query from a lower address of its version changes anything.
    pub fn heard(&mut self, bytes: &[u8], head: &Head, now: u64)
        requires frame { frame bytes.now ≡ Ok head.now }
        requires moment { now < 2 ^ 53 }
        ensures { self.new ≡ heard self.old (asker_of bytes.now head.now) now }
    {
        match asker_in(bytes, head) {
            Some((false, address)) => self.four.hears(address, now),
            Some((true, address)) => self.six.hears(address, now),
            None => {}
        }
    }

    /// The moment comes: the queries that leave, version 4 before 6. After want of memory it is as if it hadn't come.
    pub fn tick(&mut self, alloc: Global, now: u64) -> Result<Queries, NoMemory>
        requires { now < 2 ^ 53 }
        ensures queries { IfOk result (λ out. out ≡ queries self.old now) }
        ensures ok { OnOk result (self.new ≡ ticked self.old now) }
        ensures err { OnErr result (self.new ≡ self.old) }
    {
        let mut queries = Queries::new(alloc);
        self.push_four(alloc, now, &mut queries)?;
        self.push_six(alloc, now, &mut queries)?;
        self.four = self.four.passed(now);
        self.six = self.six.passed(now);
        Ok(queries)
    }

    // Adds the query of version 4, where it leaves.
    fn push_four(&self, alloc: Global, now: u64, queries: &mut Queries) -> Result<(), NoMemory>
        ensures { OnOk result (queries.new ≡ queries.old ++ query_of self.now.four now (query_four self.now.own self.now.four.address)) }
    {
        let own = self.own;
        let four = self.four;
        if !four.queries_at(now) {
            return Ok(());
        }
        let query = Bytes::copy_of(alloc, &query_four(own, four.address as u32))?;
        queries.push(query)
    }

    // Adds the query of version 6, where it leaves.
    fn push_six(&self, alloc: Global, now: u64, queries: &mut Queries) -> Result<(), NoMemory>
        ensures { OnOk result (queries.new ≡ queries.old ++ query_of self.now.six now (query_six self.now.own self.now.six.address)) }
    {
        let own = self.own;
        let six = self.six;
        if !six.queries_at(now) {
            return Ok(());
        }
        let query = Bytes::copy_of(alloc, &query_six(own, six.address))?;
        queries.push(query)
    }
}
