// A file whose head is in range, and the places that follow from it.
ghost use Rattle.std.specs.Prelude.{◌≡◌, ◌+◌, ◌<◌, ◌≤◌, length};
ghost use Rattle.table_file.specs.Clear.{HeadClear};
ghost use Rattle.table_file.specs.Format.{horizon_in, activities_in, duration_in, cells_in, prices_place, relation_count_place, relations_place};

// A file that begins with a head in range. All places in it depend on the two numbers there.
#[derive(Clone, Copy)]
pub(crate) struct Headed<'a> {
    pub(crate) bytes: &'a [u8],
    ghost long: { 3 ≤ length bytes.now },
    ghost head: { HeadClear bytes.now },
}

impl Headed<'_> {
    pub(crate) fn horizon(self) -> u8
        ensures { result ≡ horizon_in self.entry.bytes.now }
    {
        self.bytes[1]
    }

    pub(crate) fn activities(self) -> u8
        ensures { result ≡ activities_in self.entry.bytes.now }
    {
        self.bytes[2]
    }

    // How long an activity lasts, where its byte is there.
    pub(crate) fn duration(self, activity: u8) -> u8
        requires { 3 + activity < length self.bytes.now }
        ensures { result ≡ duration_in self.entry.bytes.now activity }
    {
        self.bytes[3 + usize::from(activity)]
    }

    // How many prices there are: one for each activity and slot.
    pub(crate) fn cells(self) -> u16
        ensures value { result ≡ cells_in self.entry.bytes.now }
        ensures bound { result ≤ 8192 }
    {
        u16::from(self.activities()) * u16::from(self.horizon())
    }

    // Where the first price stands.
    pub(crate) fn prices_place(self) -> u16
        ensures { result ≡ prices_place self.entry.bytes.now }
    {
        5 + u16::from(self.activities())
    }

    // Where the number of relations stands.
    pub(crate) fn relation_count_place(self) -> u16
        ensures value { result ≡ relation_count_place self.entry.bytes.now }
        ensures bound { result ≤ 32837 }
    {
        self.prices_place() + 4 * self.cells()
    }

    // Where the first relation stands.
    pub(crate) fn relations_place(self) -> u16
        ensures value { result ≡ relations_place self.entry.bytes.now }
        ensures bound { result ≤ 32839 }
    {
        self.relation_count_place() + 2
    }
}
