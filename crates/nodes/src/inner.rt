// The corridor's words, copied out of a list of nodes.
ghost use Rattle.std.specs.Prelude.{◌≡◌};
ghost use Rattle.nodes.specs.Nodes.{node_words, words_taken};

use crate::Node;

// A node's words in the order of kind 10.
#[tactic(auto, unfolding(crate::specs::Nodes::node_words))]
pub fn words_of_node(node: Node) -> [u32; 11]
    ensures { result ≡ node_words node }
{
    [
        node.identifier,
        node.capacity,
        node.full_speed,
        node.wave_speed,
        node.jam,
        node.ramp_capacity,
        node.queue_limit,
        node.start_vehicles,
        node.start_queue,
        node.dropped_capacity,
        node.drop_density,
    ]
}

// N and the words of all nodes, put into a lent room; none where no corridor has as many nodes.
#[tactic(auto, unfolding(crate::specs::Nodes::words_taken))]
pub fn words_of_nodes<'a>(nodes: &[Node], room: &'a mut [u32; 716]) -> &'a [u32]
    ensures { result.now ≡ words_taken nodes.now }
{
    let count = nodes.len();
    if !(2..=65).contains(&count) {
        return &[];
    }
    room[0] = (count - 1) as u32;
    for i in 0..count {
        let node = nodes[i];
        let at = i * 11 + 1;
        room[at..at + 11].copy_from_slice(&words_of_node(node));
    }
    &room[..count * 11 + 1]
}
