// Large outlines of whole numbers.

// 513 points round a square of 128 a side: the first 512 go round once.
pub fn border() -> [f32; 1026] {
    let mut coords = [0.0f32; 1026];
    let (points, _) = coords.as_chunks_mut::<2>();
    let mut x = 0.0f32;
    let mut y = 0.0f32;
    for (i, point) in points.iter_mut().enumerate() {
        *point = [x, y];
        match i / 128 {
            0 => x += 1.0,
            1 => y += 1.0,
            2 => x -= 1.0,
            _ => y -= 1.0,
        }
    }
    coords
}

// 512 points: the corners of the grid 128 times, each a quarter turn from the one before it, counter-clockwise by 1 and clockwise by -1.
pub fn round_the_grid(turn: f32) -> [f32; 1024] {
    let mut coords = [0.0f32; 1024];
    let (points, _) = coords.as_chunks_mut::<2>();
    let mut x = -1024.0f32;
    let mut y = -1024.0f32;
    for point in points {
        *point = [x, y];
        (x, y) = (0.0 - turn * y, turn * x);
    }
    coords
}

// 512 points: a straight back, and teeth from right to left.
pub fn comb() -> [f32; 1024] {
    let mut coords = [0.0f32; 1024];
    coords[..4].copy_from_slice(&[0.0, -5.0, 509.0, -5.0]);
    let (teeth, _) = coords[4..].as_chunks_mut::<2>();
    let mut x = 509.0f32;
    let mut y = 0.0f32;
    for tooth in teeth {
        *tooth = [x, y];
        x -= 1.0;
        y = 10.0 - y;
    }
    coords
}

// 64 points: a corridor one wide, wound inwards, and back on its left side.
pub fn spiral() -> [f32; 128] {
    let mut coords = [0.0f32; 128];
    let mut low = 0.0f32;
    let mut high = 124.0f32;
    for i in 0..8 {
        coords[8 * i..8 * i + 8].copy_from_slice(&[
            low - 4.0,
            low,
            high,
            low,
            high,
            high,
            low,
            high,
        ]);
        coords[120 - 8 * i..128 - 8 * i].copy_from_slice(&[
            low + 1.0,
            high - 1.0,
            high - 1.0,
            high - 1.0,
            high - 1.0,
            low + 1.0,
            low - 3.0,
            low + 1.0,
        ]);
        low += 4.0;
        high -= 4.0;
    }
    coords
}
