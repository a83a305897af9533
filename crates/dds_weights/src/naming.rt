//! The names of a certificate's rows.
ghost use Rattle.std.specs.Prelude.{◌≡◌};
ghost use Rattle.dds_weights.specs.Naming.{row_name};
ghost use Rattle.dds_weights.specs.Views.{certificate_view};

use crate::certificate::Certificate;

/// The name of a row of a certificate, by its place. A number that names none has the empty name.
pub fn row_name(certificate: &Certificate, row: usize) -> &str
    ensures { result.now ≡ row_name (certificate_view certificate.now) row }
{
    match certificate.rows.get(row) {
        Some(row) => row.name.as_str(),
        None => "",
    }
}
