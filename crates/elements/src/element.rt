// What a kind of element can do.
ghost use Rattle.std.specs.Prelude.{◌≡◌};
ghost use Rattle.elements.specs.Laws.{Operations, Laws};

pub trait Element: Copy {
    // Which values of the logic are values of the type.
    ghost ok: { Self → Type 0 };

    ghost ops: { Operations Self };

    fn zero() -> Self
        ensures { result ≡ ops.zero };

    fn one() -> Self
        ensures { result ≡ ops.one };

    fn add(self, other: Self) -> Self
        ensures { result ≡ ops.add self other };

    fn neg(self) -> Self
        ensures { result ≡ ops.neg self };

    fn mul(self, other: Self) -> Self
        ensures { result ≡ ops.mul self other };

    // Zero's inverse is zero.
    fn inv(self) -> Self
        ensures { result ≡ ops.inv self };

    // Equality by the name that the laws have for it: `==` of a parameter is another operation to them.
    fn same(self, other: Self) -> bool
        ensures { result ≡ ops.same self other };

    // Does nothing: generic code learns by it that a value of the type is proper.
    fn proper(self)
        ensures { ok self };

    ghost laws: { Laws ok ops };
}
