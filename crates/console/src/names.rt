// The names of the studio's types and of their fields.
#[derive(Clone, Copy)]
pub(crate) struct TypeNames<'t> {
    pub(crate) name: &'t str,
    fields: &'t [&'t str],
}

impl<'t> TypeNames<'t> {
    pub(crate) fn field(&self, field: u64) -> Option<&'t str> {
        self.fields.get(field as usize).copied()
    }
}

// In the order of the types' numbers, from 1.
pub(crate) const STUDIO: &[TypeNames<'static>] = &[
    TypeNames {
        name: "numeral",
        fields: &["number", "part", "next numeral"],
    },
    TypeNames {
        name: "lead line",
        fields: &["x1", "y1", "x2", "y2", "numeral", "next lead"],
    },
    TypeNames {
        name: "part",
        fields: &["kind", "first child", "next sibling", "numeral"],
    },
    TypeNames {
        name: "view",
        fields: &["figure", "first lead", "next view", "first part"],
    },
    TypeNames {
        name: "sheet",
        fields: &["number", "first view", "next sheet"],
    },
];
