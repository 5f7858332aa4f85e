ghost use Rattle.std.specs.Prelude.{◌≡◌, ℕ, List};
ghost use Rattle.std.specs.Option.{option_map};
ghost use Rattle.report_fields.specs.Parts.{Gives, or_left};

use report_fields::Unread;

/// What a line's reader answered, or where the line stands that does not fit.
pub fn fits<'a, T: Drop>(bytes: &[u8], read: Option<(T, &'a [u8])>) -> Result<(T, &'a [u8]), Unread>
    ensures line { Gives {Y = T × List ℕ} (λ x. (x.0, x.1.now)) result (or_left bytes.now (option_map {U = T × List ℕ} (λ x. (x.0, x.1.now)) read.entry)) }
{
    match read {
        Some(item) => Ok(item),
        None => Err(Unread::Left(bytes.len())),
    }
}

/// What follows a line that is passed over, or where the line stands if it does not fit.
pub fn passed<'a>(bytes: &[u8], read: Option<&'a [u8]>) -> Result<&'a [u8], Unread>
    ensures line { Gives (λ rest. rest.now) result (or_left bytes.now (option_map (λ rest. rest.now) read.entry)) }
{
    match read {
        Some(rest) => Ok(rest),
        None => Err(Unread::Left(bytes.len())),
    }
}
