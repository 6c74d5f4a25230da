#![tactic(auto)]
// The maximum flow of any network, in lent memory and a table of 20,000 words on the stack.
//
// The method is Dinic's (1970), with the order of finding in place of levels. Repeat: search from the source
// over arcs with capacity left and backwards over flow, and rank the nodes in the order in which they are
// found; then look for ways in depth, from the sink back over arcs that come from nodes of smaller rank,
// each node going on from the arc where it stopped, and push along each way as much as it carries.
//
// Nearly all of it is done in quick rounds, whose searches begin at the nodes that unbounded arcs alone lead to
// and stop at the sink. Nothing is promised of them but that a flow stays a flow. Then come whole searches: if one
// finds the sink, a way is laid over the arcs by which it was found, so that the value grows; if not, one
// pass over all arcs shows that nothing was left out, and the nodes found are the near side of a minimum cut.
//
// Cost: a search looks at each arc from each of its ends at most once, a search in depth tries no arc twice, and
// each way costs as many steps as it has arcs. Nothing is allocated.
//
// Memory: one word of 64 bits an arc, its flow, and four words of 32 bits a node, in four parts.
//
//     part     in a search                         in depth
//     rank     place in the order of finding + 1   the same; 0 also for a node that leads nowhere
//     link     the arc by which it was found       the arc by which its way goes on to the sink
//     place    the queue of the nodes found        twice the cursor among its arcs, + 1 past the entering
//     far      entering arcs at cursors from here on carry no flow: they are not asked for backwards
//
// In a whole search the sink has the last of all ranks and never waits in the queue. In the end the first part
// has the marks and the others are 0.
mod augment;
mod deepen;
pub mod engine;
mod nodes;
mod raising;
mod rounds;
mod search;
mod start;
