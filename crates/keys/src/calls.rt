// The calls about stay n, given so many bytes of the season's key, of the stay's number and of its key.
ghost use Rattle.std.specs.Prelude.{◌≤◌};

use crate::season;
use scope::Refusal;

pub fn store(n: u8, key: usize, iv: usize, stay_key: usize, kept: &mut [u8]) -> Result<(), Refusal>
    requires { (key ≤ 32) × (iv ≤ 16) × (stay_key ≤ 32) }
{
    let k = season::KEY;
    let i = season::iv(n);
    let s = season::stay_key(n);
    key_store::store(&k[0..key], &i[0..iv], &s[0..stay_key], kept)
}

pub fn fetch(n: u8, key: usize, iv: usize, kept: &[u8]) -> Result<[u8; 32], Refusal>
    requires { (key ≤ 32) × (iv ≤ 16) }
{
    let k = season::KEY;
    let i = season::iv(n);
    key_store::fetch(&k[0..key], &i[0..iv], kept)
}

pub fn erase(n: u8, iv: usize, kept: &mut [u8]) -> Result<(), Refusal>
    requires { iv ≤ 16 }
{
    let i = season::iv(n);
    key_store::erase(&i[0..iv], kept)
}
