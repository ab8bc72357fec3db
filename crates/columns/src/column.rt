// The bytes of forty cells, as many lines for each, those of a line side by side.
ghost use Rattle.std.specs.Prelude.{◌≡◌, ◌*◌, ◌<◌, length};
ghost use Rattle.basics.specs.Parts.{table};
ghost use Rattle.columns.specs.HowColumns.{put_at};

// The bytes of cell x put in their places.
pub fn put_column(columns: &mut [u8], x: usize, column: &[u8])
    requires { (length columns.old ≡ 40 * length column.now) × (x < 40) }
    ensures { columns.new ≡ table (put_at columns.old x column.now) (40 * length column.now) }
{
    for (n, byte) in column.iter().enumerate() {
        columns[40 * n + x] = *byte;
    }
}
