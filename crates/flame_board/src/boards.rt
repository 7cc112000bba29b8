//! Boards that gather what lanes hand in.

ghost use Rattle.std.specs.Prelude.{◌≡◌, ◌∷◌, ◌++◌, [], IfOk, OnOk, OnErr};
ghost use Rattle.std.specs.List.{All, AllZip, range_with_len};
ghost use Rattle.flame_rows.specs.Bags.{merge_all};
ghost use Rattle.flame_index.specs.FrozenBoards.{messages_on, nothing_kept};
ghost use Rattle.flame_board.specs.SeenLanes.{AreEndsOf, IsSameLane, bags_of, parts_of};
ghost use Rattle.flame_board.specs.SeenBoards.{AreLanesOf, IsLaneFor, IsLaneOf, before_of};

use crate::freezing::take_lanes;
use crate::lanes::{End, Lane};
use crate::layers::Layer;
use crate::logs::Sends;
use crate::pieces::dues_of;
use flame_index::Frozen;
use flame_merging::merge_here;
use flame_rows::{Bag, NoMemory, Seq};
use flame_world::Part;
use std::alloc::Global;
use std::sync::Wait;

/// A board of one message in a layer: the messages that were there before, and an end of each lane.
#[derive(Drop)]
pub struct Board {
    pub(crate) before: Bag,
    pub(crate) ends: Vec<End>,
}

/// The lanes of the layer to a board of the message, in order, and the board's ends of them.
fn lanes_of(alloc: Global, layer: &Layer, message: u32) -> Result<(Vec<End>, Vec<Lane>), NoMemory>
    ensures ends { IfOk result (λ made. AreEndsOf made.0.items made.1.items) }
    ensures lanes { IfOk result (λ made. AllZip (IsLaneFor layer.now message) (range_with_len 0 layer.now.lanes)
        made.1.items) }
{
    let mut ends = Vec::new(alloc);
    let mut lanes = Vec::new(alloc);
    for number in 0..layer.lanes {
        let dues = dues_of(alloc, layer, message, number)?;
        let (end, lane) = Lane::open(alloc, number, dues)?;
        ends.push(end)?;
        lanes.push(lane)?;
    }
    Ok((ends, lanes))
}

impl Board {
    /// A board of the message in this layer, with the messages that were there before, and its lanes, by which nothing was
    /// handed in yet: by lane n a part is due from each piece in a place p of the layer with p mod lanes = n whose function
    /// outputs the message, in their order. Each lane has a channel of its own, with room for all parts that are due, and for
    /// one at least. NoMemory where memory is not found.
    pub fn new(
        alloc: Global,
        layer: &Layer,
        message: u32,
        before: Bag,
    ) -> Result<(Board, Seq<Lane>), NoMemory>
        ensures before { IfOk result (λ made. before_of made.0 ≡ before) }
        ensures lanes { IfOk result (λ made. AllZip (IsLaneFor layer.now message) (range_with_len 0 layer.now.lanes)
            made.1) }
        ensures all { IfOk result (λ made. AreLanesOf made.0 made.1) }
        ensures each { IfOk result (λ made. All (IsLaneOf made.0) made.1) }
    {
        let (ends, lanes) = lanes_of(alloc, layer, message)?;
        Ok((Board { before, ends }, Seq::of(lanes)))
    }

    /// Hands in a part by a lane of the board: it joins the lane's parts. The part goes by one send on the lane's channel,
    /// which does not wait; where the send hands it back, as it does where the channel is full, the part stays with the lane
    /// until the board is frozen. On NoMemory the lane is as it was, and the part is given up.
    pub fn hand_in<R: Wait>(&self, rt: &R, lane: &mut Lane, part: Part) -> Result<(), NoMemory>
        requires own { IsLaneOf self.now lane.old }
        ensures same { IsSameLane lane.old lane.new }
        ensures added { OnOk result (parts_of lane.new ≡ parts_of lane.old ++ part ∷ []) }
        ensures unchanged { OnErr result (parts_of lane.new ≡ parts_of lane.old) }
    {
        lane.stayed.reserve(1)?;
        match lane
            .sender
            .try_send_as::<Sends, R>(rt, &mut lane.pass, part)
        {
            Ok(()) => lane.stayed.push_reserved(None),
            Err(back) => lane.stayed.push_reserved(Some(back.into_inner())),
        }
        Ok(())
    }

    /// All that the board has, where these are all its lanes: the messages that were there before and those of all parts that
    /// were handed in by the lanes, each as often as it came, in bags that are not put together yet. On NoMemory all is given up.
    pub fn gather<R: Wait>(self, rt: &R, lanes: Seq<Lane>) -> Result<Vec<Bag>, NoMemory>
        requires all { AreLanesOf self lanes }
        ensures { IfOk result (λ bags. merge_all bags.items ≡ merge_all (before_of self ∷ bags_of lanes)) }
    {
        let Board { before, ends } = self;
        let mut bags = Vec::new(*ends.allocator());
        bags.push(before)?;
        take_lanes(rt, ends, lanes.into_items(), &mut bags)?;
        Ok(bags)
    }

    /// Freezes the board, where these are all its lanes: it has the messages that were there before and those of all parts
    /// that were handed in by the lanes, each as often as it came. On NoMemory all is given up.
    pub fn freeze<R: Wait>(self, rt: &R, lanes: Seq<Lane>) -> Result<Frozen, NoMemory>
        requires all { AreLanesOf self lanes }
        ensures messages { IfOk result (λ frozen. messages_on frozen ≡ merge_all (before_of self ∷ bags_of lanes)) }
        ensures kept { IfOk result (λ frozen. frozen.kept ≡ nothing_kept) }
    {
        let alloc = *self.ends.allocator();
        let bags = self.gather(rt, lanes)?;
        let bag = merge_here(alloc, bags)?;
        Ok(Frozen::of(bag))
    }
}
