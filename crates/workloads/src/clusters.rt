//! The nodes of a cluster, as their processes drive them: groups of datagrams and of client calls go in, each group is stored by one
//! append, and datagrams go out by a port, signed or not.
use crate::digest::Digest;
use crate::numbers::{Numbers, rounds};
use crate::payments::Payments;
use crate::posts::Post;
use crate::starts::take_table;
use anyhow::{Result, bail};
use hmac::Key;
use node_core::{Config, Input, Output, Sizes};
use port::{FakePort, MAX_TAKEN, Member, Port, call_all};
use protocol::{Action, Answer, Change, NodeId, Request, Row, View};
use signed_port::{DIGEST, PlainPort, SignedPort};
use stable_record::MemRecord;
use std::alloc::Global;
use wire::OwnedTx;
use xid::Sequence;

/// How many inputs are handed to a node at a time, at most.
const GROUP: usize = 64;

/// How many first rows a resource manager has, and how many branches are left open at it.
const ROWS: u32 = 20_000;

/// How many bytes a key has that datagrams are signed with.
const KEY_BYTES: usize = 34;

/// How many rounds of datagrams a transaction takes, at most.
const ROUNDS: u32 = 32;

/// How many pairs of clusters run, with other numbers in each.
const PAIRS: u32 = 2;

/// The nodes of the cluster, by their places: the one leader stands behind three acceptors, before two resource managers.
const NODES: [NodeId; 6] = [
    NodeId::A(0),
    NodeId::A(1),
    NodeId::A(2),
    NodeId::L(0),
    NodeId::R(0),
    NodeId::R(1),
];

/// Where the leader stands.
const LEADER: usize = 3;

/// Where the first resource manager stands.
const MANAGER: usize = 4;

/// A cluster, with what is on its way in it.
#[derive(Drop)]
pub struct Processes {
    alloc: Global,
    nodes: Vec<Member<MemRecord>>,
    post: Post,
    outs: Vec<Output>,
    payments: Payments,
    signing: Option<Signing>,
}

/// What the datagrams of a cluster are signed with.
#[derive(Drop)]
struct Signing {
    key: Key,
    digest: [u8; DIGEST],
}

impl Signing {
    /// A key, and a digest of the cluster.
    fn new(numbers: &mut Numbers) -> Signing {
        let mut key = [0; KEY_BYTES];
        numbers.fill(&mut key);
        let mut digest = [0; DIGEST];
        numbers.fill(&mut digest);
        Signing {
            key: Key::new(&key),
            digest,
        }
    }
}

/// Takes an answer.
fn take_answer(answer: &Answer, digest: &mut Digest) {
    match answer {
        Answer::Done => digest.number(0),
        Answer::Code(code) => {
            digest.number(1);
            digest.number(u64::from(code.number().unsigned_abs()));
        }
        Answer::Value(value) => {
            digest.number(2);
            digest.take(value.as_slice());
        }
        Answer::NoValue => digest.number(3),
        // nothing is asked here that is answered so
        Answer::Xids(_) | Answer::Stands(_) => digest.number(4),
        Answer::Refused(refusal) => {
            digest.number(5);
            digest.number(u64::from(refusal.number()));
        }
    }
}

/// Takes the view that a resource manager changed, if it changed one.
fn take_change(now: &Option<Change>, digest: &mut Digest) {
    let Some(change) = now else {
        digest.number(0);
        return;
    };
    digest.number(match change.view {
        View::Working => 1,
        View::Prepared => 2,
        View::Committed => 3,
        View::Aborted => 4,
    });
    digest.number(u64::from(change.rm));
    digest.take(change.tx.gtrid());
}

/// Takes what came of an input: the answer, the change of a view, and how much is sent, which is taken where it is on its way.
fn take_output(out: &Output, digest: &mut Digest) {
    take_answer(&out.reply, digest);
    take_change(&out.now, digest);
    digest.number(u64::try_from(out.sends.count()).unwrap_or(0));
}

/// A carrier at which datagrams wait.
fn carrier_of(alloc: Global, letters: &[Vec<u8>]) -> Result<FakePort> {
    let mut carrier = FakePort::new(alloc, 0);
    for letter in letters {
        carrier.put(letter)?;
    }
    Ok(carrier)
}

/// What a port gives, so many datagrams at most.
fn receive<P: Port>(alloc: Global, port: &mut P, count: usize) -> Result<Vec<Vec<u8>>> {
    let mut received = Vec::with_capacity(alloc, count)?;
    let mut buffer = [0; MAX_TAKEN];
    for _ in 0..count {
        match port.recv(&mut buffer) {
            Ok(Some(len)) => received.push(Vec::from_slice(alloc, &buffer[..len])?)?,
            Ok(None) => {}
            Err(refusal) => bail!("the port failed: {refusal}"),
        }
    }
    Ok(received)
}

/// Hands a group to a node, which sends by a port what comes of it.
fn hand_over<P: Port>(
    alloc: Global,
    node: &mut Member<MemRecord>,
    port: &mut P,
    count: usize,
    requests: &[Request],
    outs: &mut [Output],
    digest: &mut Digest,
) -> Result<()> {
    let received = receive(alloc, port, count)?;
    let mut inputs = Vec::with_capacity(alloc, GROUP)?;
    for bytes in &received {
        inputs.push(Input::Received(bytes))?;
    }
    for request in requests {
        inputs.push(Input::Asked(request))?;
    }
    if inputs.len() > outs.len() {
        bail!("the group is too large");
    }
    let outs = &mut outs[..inputs.len()];
    if call_all(node, port, &inputs, outs).is_err() {
        bail!("the append failed");
    }
    for out in &*outs {
        take_output(out, digest);
    }
    digest.number(port.faults());
    Ok(())
}

impl Processes {
    /// A cluster whose tables have first rows, and which may sign its datagrams.
    fn new(
        alloc: Global,
        rows: u32,
        payments: Payments,
        signing: Option<Signing>,
    ) -> Result<Processes> {
        let mut tables: Vec<Sequence<Row>> = Vec::new(alloc);
        for rm in [0u8, 1] {
            let mut table = Vec::new(alloc);
            for number in 0..rows {
                table.push(Row {
                    key: payments.key(alloc, rm, number)?,
                    value: payments.value(alloc, number)?,
                })?;
            }
            tables.push(Sequence::new(table))?;
        }
        let config = Config::new(3, 1, 2, Sequence::new(tables))?;
        let mut nodes = Vec::new(alloc);
        for who in NODES {
            match Member::open(alloc, &config, who, MemRecord::new(alloc, Vec::new(alloc))) {
                Ok(node) => nodes.push(node)?,
                Err((_, refusal)) => bail!("the node is refused: {refusal}"),
            }
        }
        let mut outs = Vec::with_capacity(alloc, GROUP)?;
        for _ in 0..GROUP {
            outs.push(Output::nothing())?;
        }
        let sizes: Sizes = config.sizes();
        Ok(Processes {
            alloc,
            nodes,
            post: Post::new(alloc, sizes, NODES.len())?,
            outs,
            payments,
            signing,
        })
    }

    /// A group of datagrams and requests goes to the node of a place.
    fn group(
        &mut self,
        place: usize,
        letters: &[Vec<u8>],
        requests: &[Request],
        digest: &mut Digest,
    ) -> Result<()> {
        let alloc = self.alloc;
        let Some(node) = self.nodes.get_mut(place) else {
            bail!("no such node");
        };
        let carrier = carrier_of(alloc, letters)?;
        let count = letters.len();
        match &self.signing {
            Some(signing) => {
                let key = signing.key.clone()?;
                let mut port = SignedPort::new(carrier, key, signing.digest, node.id());
                hand_over(
                    alloc,
                    node,
                    &mut port,
                    count,
                    requests,
                    &mut self.outs,
                    digest,
                )?;
                self.post.send(port.carrier().gone(), digest)?;
            }
            None => {
                let mut port = PlainPort::new(carrier);
                hand_over(
                    alloc,
                    node,
                    &mut port,
                    count,
                    requests,
                    &mut self.outs,
                    digest,
                )?;
                self.post.send(port.carrier().gone(), digest)?;
            }
        }
        Ok(())
    }

    /// Requests go to the node of a place.
    fn ask(&mut self, place: usize, requests: &[Request], digest: &mut Digest) -> Result<()> {
        for group in requests.chunks(GROUP) {
            self.group(place, &[], group, digest)?;
        }
        Ok(())
    }

    /// All nodes take what waits for them, until nothing is on its way.
    fn settle(&mut self, digest: &mut Digest) -> Result<()> {
        for _ in 0..ROUNDS {
            let mut is_quiet = true;
            for place in 0..NODES.len() {
                let letters = self.post.fetch(place);
                for group in letters.chunks(GROUP) {
                    self.group(place, group, &[], digest)?;
                    is_quiet = false;
                }
            }
            if is_quiet {
                return Ok(());
            }
        }
        Ok(())
    }

    /// The calls of a transaction's branch at a resource manager, of which one holds a key for each number.
    fn work(
        &self,
        rm: u8,
        number: u32,
        keys: &[u32],
        ends: bool,
        requests: &mut Vec<Request>,
    ) -> Result<()> {
        let xid = self.payments.branch(rm, number)?;
        requests.push(Request::Call {
            xid,
            action: Action::Start,
        })?;
        for key in keys {
            let action = Action::Put {
                key: self.payments.key(self.alloc, rm, *key)?,
                value: self.payments.value(self.alloc, number)?,
            };
            requests.push(Request::Call { xid, action })?;
        }
        if ends {
            if let [first, ..] = keys {
                let key = self.payments.key(self.alloc, rm, first.wrapping_add(1))?;
                requests.push(Request::Call {
                    xid,
                    action: Action::Get { key },
                })?;
            }
            requests.push(Request::Call {
                xid,
                action: Action::End,
            })?;
        }
        Ok(())
    }

    /// Branches are left open at both resource managers, each of which holds a key.
    fn leave_open(&mut self, count: u32, digest: &mut Digest) -> Result<()> {
        for rm in [0u8, 1] {
            let mut requests = Vec::new(self.alloc);
            for place in 0..count {
                let number = place.wrapping_add(1 << 24);
                self.work(rm, number, &[number], false, &mut requests)?;
            }
            self.ask(MANAGER + usize::from(rm), &requests, digest)?;
        }
        Ok(())
    }

    /// So many transactions from a number begin, work, and are committed.
    fn commit(
        &mut self,
        first: u32,
        count: u32,
        numbers: &mut Numbers,
        digest: &mut Digest,
    ) -> Result<()> {
        for rm in [0u8, 1] {
            let mut requests = Vec::new(self.alloc);
            for place in 0..count {
                let keys = [numbers.below(1 << 20), numbers.below(ROWS)];
                self.work(rm, first.wrapping_add(place), &keys, true, &mut requests)?;
            }
            self.ask(MANAGER + usize::from(rm), &requests, digest)?;
        }
        let mut requests = Vec::new(self.alloc);
        for place in 0..count {
            let tx = OwnedTx::new(self.alloc, &self.payments.tx(first.wrapping_add(place))?)?;
            requests.push(Request::Commit { tx })?;
        }
        self.ask(LEADER, &requests, digest)?;
        self.settle(digest)
    }

    /// What the nodes have stored, and their tables.
    fn finish(self, digest: &mut Digest) -> Result<()> {
        for node in self.nodes {
            let mut node = node;
            take_table(&mut node, digest);
            digest.take(node.into_record().as_slice());
        }
        Ok(())
    }
}

/// Transactions commit one after another, eight at a time, and sixty-four at a time.
fn commit_all(
    alloc: Global,
    cluster: u32,
    signing: Option<Signing>,
    transactions: u32,
    parts: u32,
    numbers: &mut Numbers,
    digest: &mut Digest,
) -> Result<()> {
    let payments = Payments::new(cluster, numbers);
    let mut processes = Processes::new(alloc, ROWS / parts.max(1), payments, signing)?;
    processes.leave_open(ROWS / parts.max(1), digest)?;
    let mut first: u32 = 0;
    for at_once in [1, 8, 64] {
        for _ in 0..transactions / at_once / 3 + 1 {
            processes.commit(first, at_once, numbers, digest)?;
            first = first.wrapping_add(at_once);
        }
    }
    processes.finish(digest)
}

/// Transactions commit in a cluster that signs its datagrams, and in one that doesn't.
fn commit_pair(
    alloc: Global,
    pair: u32,
    parts: u32,
    numbers: &mut Numbers,
    digest: &mut Digest,
) -> Result<()> {
    let cluster = pair.wrapping_mul(2);
    let signing = Some(Signing::new(numbers));
    let transactions = 2_400 / parts.max(1);
    commit_all(
        alloc,
        cluster,
        signing,
        transactions,
        parts,
        numbers,
        digest,
    )?;
    let cluster = cluster.wrapping_add(1);
    let transactions = 7_200 / parts.max(1);
    commit_all(alloc, cluster, None, transactions, parts, numbers, digest)
}

/// Transactions commit in clusters that sign their datagrams, and in as many that don't.
pub fn commit(alloc: Global, seed: u32, parts: u32, digest: &mut Digest) -> Result<()> {
    let mut numbers = Numbers::new(seed, 6);
    for pair in 0..rounds(PAIRS, parts) {
        commit_pair(alloc, pair, parts, &mut numbers, digest)?;
    }
    Ok(())
}
