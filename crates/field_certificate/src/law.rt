//! The law. Nothing here runs.
ghost use Rattle.field_certificate.specs.Laws.{FieldCertificateIsOne, FieldIsGivenBack, FieldTextSpells};

/// The certificate of the field of points within the limits is a certificate, where its text is not too long: there are as many lines as line 1 says,
/// each of its form and in its range. So its text spells it. What it gives over the points is the accounting of the field: its cells, entries, rows, radii and boxes.
pub fn field_certificate_is_one()
    ensures one { FieldCertificateIsOne }
    ensures spelled { FieldTextSpells }
    ensures given { FieldIsGivenBack }
{}
