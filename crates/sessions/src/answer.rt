// The answer buffer of a done ask or show: 8 bytes of roles, 32 of the permissions that they carry.
ghost use Rattle.std.specs.Prelude.{◌≡◌, ◌++◌, length};
ghost use Rattle.model.specs.Bytes.{bytes_of};
ghost use Rattle.sets.specs.Words.{value};

// Fills the buffer.
pub fn fill(answer: &mut [u8], roles: u64, permissions: [u64; 4])
    requires { length answer.old ≡ 40 }
    ensures { answer.new ≡ bytes_of 8 roles ++ bytes_of 32 (value permissions) }
{
    octets::put_u64(answer, 0, roles);
    octets::put_numbers(answer, 8, &permissions);
}
