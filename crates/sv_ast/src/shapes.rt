// Which trees the grammar gives.
ghost use Rattle.std.specs.Prelude.{◌≡◌, Bool, true, List, Option, map};
ghost use Rattle.std.specs.List.{list_all};
ghost use Rattle.std.specs.Option.{option_map, option_map_or};

/// What the grammar restricts beyond its type.
pub trait Shaped {
    ghost Form: { Type 0 };

    ghost form: { Self → Form };

    ghost shaped: { Form → Bool };

    /// Whether the grammar can give the value.
    fn is_shaped(&self) -> bool
        ensures { result ≡ shaped (form self.now) };
}

impl<T: Shaped> Shaped for Option<T> {
    ghost Form = { Option T.Form };

    ghost form = { option_map T.form };

    ghost shaped = { λ item. option_map_or T.shaped item true };

    fn is_shaped(&self) -> bool {
        match self {
            Some(item) => item.is_shaped(),
            None => true,
        }
    }
}

impl<T: Shaped> Shaped for Vec<T> {
    ghost Form = { List T.Form };

    ghost form = { λ items. map T.form items.items };

    ghost shaped = { list_all T.shaped };

    fn is_shaped(&self) -> bool {
        self.iter().all(|item| item.is_shaped())
    }
}
