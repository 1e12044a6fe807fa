// The block scans of RDD 36 and their inverses.
ghost use Rattle.std.specs.Prelude.{◌≡◌};
ghost use Rattle.quant.specs.Scans.{scan_of, inv_of};

// Figure 4, at a natural place (a row after the other) its scanned index.
pub const BLOCK_SCAN_PROGRESSIVE: [u8; 64] = [
    0, 1, 4, 5, 16, 17, 21, 22, 2, 3, 6, 7, 18, 20, 23, 28, 8, 9, 12, 13, 19, 24, 27, 29, 10, 11,
    14, 15, 25, 26, 30, 31, 32, 33, 37, 38, 45, 46, 53, 54, 34, 36, 39, 44, 47, 52, 55, 60, 35, 40,
    43, 48, 51, 56, 59, 61, 41, 42, 49, 50, 57, 58, 62, 63,
];

// Figure 5.
pub const BLOCK_SCAN_INTERLACED: [u8; 64] = [
    0, 2, 8, 10, 32, 34, 35, 41, 1, 3, 9, 11, 33, 36, 40, 42, 4, 6, 12, 14, 37, 39, 43, 49, 5, 7,
    13, 15, 38, 44, 48, 50, 16, 18, 19, 25, 45, 47, 51, 57, 17, 20, 24, 26, 46, 52, 56, 58, 21, 23,
    27, 30, 53, 55, 59, 62, 22, 28, 29, 31, 54, 60, 61, 63,
];

// At a scanned index its natural place.
pub const PROGRESSIVE_INV_SCAN: [u8; 64] = [
    0, 1, 8, 9, 2, 3, 10, 11, 16, 17, 24, 25, 18, 19, 26, 27, 4, 5, 12, 20, 13, 6, 7, 14, 21, 28,
    29, 22, 15, 23, 30, 31, 32, 33, 40, 48, 41, 34, 35, 42, 49, 56, 57, 50, 43, 36, 37, 44, 51, 58,
    59, 52, 45, 38, 39, 46, 53, 60, 61, 54, 47, 55, 62, 63,
];

// At a scanned index its natural place.
pub const INTERLACED_INV_SCAN: [u8; 64] = [
    0, 8, 1, 9, 16, 24, 17, 25, 2, 10, 3, 11, 18, 26, 19, 27, 32, 40, 33, 34, 41, 48, 56, 49, 42,
    35, 43, 50, 57, 58, 51, 59, 4, 12, 5, 6, 13, 20, 28, 21, 14, 7, 15, 22, 29, 36, 44, 37, 30, 23,
    31, 38, 45, 52, 60, 53, 46, 39, 47, 54, 61, 62, 55, 63,
];

// The scanned index of each natural place.
pub fn block_scan(interlaced: bool) -> [u8; 64]
    ensures { result ≡ scan_of interlaced }
{
    if interlaced {
        BLOCK_SCAN_INTERLACED
    } else {
        BLOCK_SCAN_PROGRESSIVE
    }
}

// The natural place of each scanned index.
pub fn inv_scan(interlaced: bool) -> [u8; 64]
    ensures { result ≡ inv_of interlaced }
{
    if interlaced {
        INTERLACED_INV_SCAN
    } else {
        PROGRESSIVE_INV_SCAN
    }
}
