// A stage's nodes, one after another.
ghost use Rattle.std.specs.Prelude.{◌≡◌, ◌<◌, None, slice_index_or};
ghost use Rattle.std.specs.Iterator.{YieldsFirst, item_count};
ghost use Rattle.schedule.specs.Nodes.{nodes_from, left};

use crate::schedule::Schedule;
use crate::stage_nodes::StageNodes;

impl Schedule {
    // The nodes of stage k.
    pub fn nodes(&self, k: usize) -> StageNodes<'_>
        ensures first { result.next ≡ slice_index_or self.now.first k None }
        ensures of { result.schedule.now ≡ self.now }
        ensures all { k < 33 → left result ≡ nodes_from self.now.stage_of k 0 }
    {
        StageNodes {
            schedule: self,
            next: self.first_of(k),
        }
    }
}

impl Iterator for StageNodes<'_> {
    type Item = usize;

    ghost next_gives = { YieldsFirst left };

    ghost remaining = { item_count left };

    fn next(&mut self) -> Option<usize> {
        let n = self.next?;
        self.next = self.schedule.next_of(n);
        Some(n)
    }
}
