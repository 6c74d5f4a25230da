// How much memory the flow over the time network of a project takes.
ghost use Rattle.std.specs.Prelude.{◌≡◌, ◌≤◌};
ghost use Rattle.plan_theory.specs.TimeNetwork.{time_net};

use model::project::Project;

/// How many arcs, and so flow words, the time network of a project has: H · (2 · n + m).
pub fn flow_words<P: Project>(project: &P) -> usize
    ensures value { result ≡ (time_net (P.meaning project.now)).arcs }
    ensures bound { result ≤ 49152 }
{
    project.horizon() as usize * (2 * project.count() as usize + project.lag_count() as usize)
}
