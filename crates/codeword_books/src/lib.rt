// Which codebook comes next: RDD 36's Tables 9 to 11. There are ten in all.
#![tactic(auto)]

ghost use Rattle.std.specs.Prelude.{◌≡◌};
ghost use Rattle.codeword_books.specs.Books.{first_book, dc_book, run_book, level_book};

use codeword::Codebook;

pub fn first_dc_codebook() -> Codebook
    ensures { result ≡ first_book }
{
    Codebook::ExpGolomb(5)
}

// By the magnitude of the last DC difference.
#[tactic(auto, unfolding(crate::specs::Books::dc_book))]
pub fn dc_diff_codebook(prev: u32) -> Codebook
    ensures { result ≡ dc_book prev }
{
    match prev {
        0 => Codebook::ExpGolomb(0),
        1 => Codebook::ExpGolomb(1),
        2 => Codebook::RiceExp {
            last_rice_q: 1,
            k_rice: 2,
            k_exp: 3,
        },
        _ => Codebook::ExpGolomb(3),
    }
}

// By the last run.
#[tactic(auto, unfolding(crate::specs::Books::run_book))]
pub fn run_codebook(prev: u32) -> Codebook
    ensures { result ≡ run_book prev }
{
    match prev {
        0..=1 => Codebook::RiceExp {
            last_rice_q: 2,
            k_rice: 0,
            k_exp: 1,
        },
        2..=3 => Codebook::RiceExp {
            last_rice_q: 1,
            k_rice: 0,
            k_exp: 1,
        },
        4 => Codebook::ExpGolomb(0),
        5..=8 => Codebook::RiceExp {
            last_rice_q: 1,
            k_rice: 1,
            k_exp: 2,
        },
        9..=14 => Codebook::ExpGolomb(1),
        _ => Codebook::ExpGolomb(2),
    }
}

// By the last level's symbol, its magnitude less one.
#[tactic(auto, unfolding(crate::specs::Books::level_book))]
pub fn level_codebook(prev: u32) -> Codebook
    ensures { result ≡ level_book prev }
{
    match prev {
        0 => Codebook::RiceExp {
            last_rice_q: 2,
            k_rice: 0,
            k_exp: 2,
        },
        1 => Codebook::RiceExp {
            last_rice_q: 1,
            k_rice: 0,
            k_exp: 1,
        },
        2 => Codebook::RiceExp {
            last_rice_q: 2,
            k_rice: 0,
            k_exp: 1,
        },
        3 => Codebook::ExpGolomb(0),
        4..=7 => Codebook::ExpGolomb(1),
        _ => Codebook::ExpGolomb(2),
    }
}
