//! Nodes: each runs its piece in a thread of its own, but the last, which is the caller, and sends its share.

ghost use Rattle.std.specs.Prelude.{◌≡◌, ◌<◌, IfOk, length, map};
ghost use Rattle.std.specs.List.{All};
ghost use Rattle.crossbeam_channel.specs.Claims.{IsSeatAt};
ghost use Rattle.crossbeam_channel.specs.Ends.{receives_on, sends_on};
ghost use Rattle.flame_world.specs.Shares.{piece_of, setting_of};
ghost use Rattle.flame_nodes.specs.NodeWork.{CanRun, CanWork, IsUnder};

use crate::gathering::gather;
use crate::terms::{Terms, run_under};
use crossbeam_channel::protocol::{Free, Split};
use crossbeam_channel::{Pass, RuledReceiver, RuledSender, bounded_with};
use flame_outside::Gate;
use flame_rows::{NoMemory, Seq};
use flame_world::{Piece, Share};
use std::alloc::Global;
use std::sync::Wait;
use std::thread;
use std::thread::Threads;

/// A pass for a further node is as good as the first. The channel asks nothing of a share beyond its type.
pub(crate) struct Alike;

impl Split<()> for Alike {
    ghost left = { λ view. view };

    ghost right = { λ view. view };
}

/// Where nodes send what they have: the sending end of a channel.
#[derive(Drop)]
pub(crate) struct Outlet<T: Drop> {
    pub end: RuledSender<T, (), Free>,
}

type Receiver<'a> = RuledReceiver<Share<'a>, (), Free>;

/// What nodes share.
#[derive(Drop)]
pub(crate) struct Floor<'n, 'a, G: Gate> {
    /// What they call just before they run a piece.
    pub gate: &'n G,
    /// Where they take memory.
    pub alloc: Global,
    /// Under what the pieces run.
    pub terms: Terms<'a>,
    /// Where they send their shares.
    pub to: &'n Outlet<Share<'a>>,
}

/// A node.
#[derive(Drop)]
pub(crate) struct Node<'n, 'a, G: Gate> {
    pub floor: &'n Floor<'n, 'a, G>,
    pub pass: Pass<Share<'a>, ()>,
    pub piece: &'n Piece,
}

/// The piece again, for the node that runs it.
fn copy_of(piece: &Piece) -> Result<Piece, NoMemory>
    ensures { IfOk result (λ copy. copy ≡ piece.now) }
{
    Ok(Piece {
        function: piece.function,
        number: piece.number,
        agents: piece.agents.copy()?,
    })
}

/// The share of the node's piece.
fn own_share<'a>(alloc: Global, terms: Terms<'a>, piece: &Piece) -> Result<Share<'a>, NoMemory>
    requires { CanRun terms piece.now }
{
    let own = copy_of(piece)?;
    run_under(alloc, terms, own)
}

/// Runs the node's piece, once the gate lets it pass, and sends the share. Where no memory is found, or the send hands the share
/// back, the node ends without.
fn work<G: Gate, R: Threads + Wait + Sync>(rt: &R, node: Node<'_, '_, G>)
    requires { CanWork node }
{
    let Node {
        floor,
        mut pass,
        piece,
    } = node;
    floor.gate.enter(rt, piece.function, piece.number);
    if let Ok(share) = own_share(floor.alloc, floor.terms, piece) {
        let _sent = floor
            .to
            .end
            .try_send_as::<Free, R>(rt, &mut pass, share)
            .is_ok();
    }
}

/// A node for each of these pieces.
fn nodes_for<'n, 'a, G: Gate>(
    floor: &'n Floor<'n, 'a, G>,
    pieces: &'n [Piece],
    pass: &mut Pass<Share<'a>, ()>,
) -> Result<Vec<Node<'n, 'a, G>>, NoMemory>
    requires seat { IsSeatAt (sends_on floor.now.to.now.end) pass.old }
    requires fit { All (CanRun floor.now.terms) pieces.now }
    ensures seat { IsSeatAt (sends_on floor.now.to.now.end) pass.new }
    ensures can { IfOk result (λ nodes. All CanWork nodes.items) }
{
    let mut nodes = Vec::new(floor.alloc);
    for piece in pieces {
        let own = floor.to.end.another::<Alike>(pass);
        nodes.push(Node {
            floor,
            pass: own,
            piece,
        })?;
    }
    Ok(nodes)
}

/// All nodes work, each in a thread of its own but the last, which is the caller. The piece of a node whose thread cannot be
/// started stays undone.
fn work_all<G: Gate, R: Threads + Wait + Sync>(rt: &R, nodes: Vec<Node<'_, '_, G>>)
    requires { All CanWork nodes.items }
{
    thread::scope(
        thread::scope_env(),
        rt,
        |scope| -> ()
            requires { All CanWork nodes.items }
        {
            let mut nodes = nodes;
            let last = nodes.pop();
            for node in nodes {
                let own = move || -> ()
                    requires { CanWork node }
                { work(rt, node) };
                let _started = scope.spawn(own).is_ok();
            }
            if let Some(node) = last {
                work(rt, node);
            }
        },
    );
}

/// The shares that came, at most so many, up to one for which no memory is found. It does not wait for one.
fn received<'a, R: Wait>(
    rt: &R,
    alloc: Global,
    receiver: &Receiver<'a>,
    pass: &mut Pass<Share<'a>, ()>,
    most: usize,
) -> Vec<Share<'a>>
    requires { IsSeatAt (receives_on receiver.now) pass.old }
{
    let mut shares = Vec::new(alloc);
    for _share in 0..most {
        let Ok(share) = receiver.try_recv_as::<Free, R>(rt, pass) else {
            return shares;
        };
        if shares.push(share).is_err() {
            return shares;
        }
    }
    shares
}

/// The shares of these pieces, of which there is one at least, that come from nodes. After NoMemory no node has worked.
fn sent<'a, G: Gate, R: Threads + Wait + Sync>(
    rt: &R,
    alloc: Global,
    gate: &G,
    terms: Terms<'a>,
    pieces: &[Piece],
) -> Result<Vec<Share<'a>>, NoMemory>
    requires some { 0 < length pieces.now }
    requires fit { All (CanRun terms) pieces.now }
{
    let (sender, receiver, mut pass) = bounded_with::<Share<'a>, (), Free, Global>(
        alloc,
        pieces.len(),
    )?;
    let outlet = Outlet { end: sender };
    let floor = Floor {
        gate,
        alloc,
        terms,
        to: &outlet,
    };
    let nodes = nodes_for(&floor, pieces, &mut pass)?;
    work_all(rt, nodes);
    Ok(received(rt, alloc, &receiver, &mut pass, pieces.len()))
}

/// The shares of these pieces that nodes send, each of which calls the gate. Where there is one piece alone, and where memory for
/// the nodes is not found, none comes: the caller calls the gate for each piece, and runs it when it gathers.
fn arrivals<'a, G: Gate, R: Threads + Wait + Sync>(
    rt: &R,
    alloc: Global,
    gate: &G,
    terms: Terms<'a>,
    pieces: &[Piece],
) -> Vec<Share<'a>>
    requires { All (CanRun terms) pieces.now }
{
    if pieces.len() > 1 {
        if let Ok(shares) = sent(rt, alloc, gate, terms, pieces) {
            return shares;
        }
    }
    for piece in pieces {
        gate.enter(rt, piece.function, piece.number);
    }
    Vec::new(alloc)
}

/// The share of each of these pieces, in their order, run by nodes.
pub(crate) fn run_pieces<'a, G: Gate, R: Threads + Wait + Sync>(
    rt: &R,
    alloc: Global,
    gate: &G,
    terms: Terms<'a>,
    pieces: Seq<Piece>,
) -> Result<Seq<Share<'a>>, NoMemory>
    requires { All (CanRun terms) pieces }
    ensures pieces { IfOk result (λ shares. map piece_of shares ≡ pieces) }
    ensures settings { IfOk result (λ shares. All (λ share. IsUnder terms.entry (setting_of share)) shares) }
{
    let arrived = arrivals(rt, alloc, gate, terms, pieces.items());
    gather(
        alloc,
        terms.program,
        pieces,
        Seq::of(arrived),
        terms.constants,
        terms.boards,
        terms.iteration,
        terms.fuel,
    )
}
