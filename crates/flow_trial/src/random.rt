// Small random networks, the same in every run.
use crate::table::Table;
use flow::network::Capacity;

/// A linear congruential generator. Its numbers have 16 bits, from a state of 64; one text for it and for the bytes
/// that small projects are drawn from would be longer than both.
#[derive(Drop)]
pub struct Generator {
    state: u64,
}

impl Generator {
    pub fn new() -> Generator {
        Generator { state: 20_261_117 }
    }

    /// A number from 0 to 65,535.
    pub fn draw(&mut self) -> usize {
        self.state = self
            .state
            .wrapping_mul(6_364_136_223_846_793_005)
            .wrapping_add(1_442_695_040_888_963_407);
        ((self.state >> 40) % 65_536) as usize
    }
}

/// A network of 2 to 8 nodes and up to 16 arcs; one arc in eight is unbounded.
pub fn random_network(generator: &mut Generator) -> Table {
    let nodes = generator.draw() % 7 + 2;
    let arcs = generator.draw() % 17;
    let mut table = Table::new(nodes);
    for _ in 0..arcs {
        let tail = generator.draw() % nodes;
        let head = generator.draw() % nodes;
        let capacity = match generator.draw() % 8 {
            0 => Capacity::Unbounded,
            _ => Capacity::Bounded((generator.draw() % 21) as u32),
        };
        table.add(tail, head, capacity);
    }
    table
}
