// Every pixel of the destination, taken from where the map sends it.
ghost use Rattle.std.specs.Prelude.{◌≡◌, ◌+◌, ◌*◌, ◌<◌, length};
ghost use Rattle.sheet.specs.Inner.Strips.{Changed};
ghost use Rattle.sheet.specs.Tabulate.{tabulate};
ghost use Rattle.displacement_map.specs.Inner.Rows.{moved_at};

use crate::axis::Axis;
use crate::landing::Picture;
use sheet::pixel::Straight;

// Row y of `dest` takes its pixels.
fn displace_row(
    columns: &Axis,
    rows: &Axis,
    picture: &Picture,
    map: &[u8],
    y: usize,
    dest: &mut [u8],
)
    requires y_in_bounds { y < picture.now.height }
    requires map_len { length map.now ≡ 4 * picture.now.width * picture.now.height }
    requires dest_len { length dest.old ≡ 4 * picture.now.width * picture.now.height }
    ensures { let first = 4 * (y * picture.now.width) in Changed 0 (λ j. moved_at columns.now rows.now picture.now map.now (first + j)) first (4 * picture.now.width) dest.old dest.new }
{
    let first = y * picture.width;
    for x in 0..picture.width {
        let at = 4 * (first + x);
        let pixel = Straight::at(map, at);
        let moved = picture.moved(columns.place(x, pixel), rows.place(y, pixel));
        moved.put(dest, at);
    }
}

// Moves pixel by pixel. Every pixel of `dest` is written.
pub fn displace(columns: &Axis, rows: &Axis, picture: &Picture, map: &[u8], dest: &mut [u8])
    requires map_len { length map.now ≡ 4 * picture.now.width * picture.now.height }
    requires dest_len { length dest.old ≡ 4 * picture.now.width * picture.now.height }
    ensures { dest.new ≡ tabulate (4 * picture.now.width * picture.now.height) (moved_at columns.now rows.now picture.now map.now) }
{
    for y in 0..picture.height {
        displace_row(columns, rows, picture, map, y, dest);
    }
}
